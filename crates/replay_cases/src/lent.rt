//! The directory that a case lends.
ghost use Rattle.std.specs.Prelude.{◌≡◌};
ghost use Rattle.replay_cases.specs.Numbers.{number_in};
ghost use Rattle.replay_cases.specs.Lent.{pool_in, root_in};

use crate::number::{number_at, part};
use directory::Directory;

/// The directory of these sizes (of a cluster, the root and the pool), whose root and pool stand at the front of the contents.
pub fn directory_in<'a>(sizes: &[u8], contents: &'a [u8]) -> Directory<'a>
    ensures root { result.root.now ≡ root_in sizes.now contents.entry.now }
    ensures pool { result.pool.now ≡ pool_in sizes.now contents.entry.now }
    ensures cluster_size { result.cluster_size ≡ number_in sizes.now 0 }
{
    let root_size = number_at(sizes, 4);
    Directory {
        root: part(contents, 0, root_size),
        pool: part(contents, root_size, number_at(sizes, 8)),
        cluster_size: number_at(sizes, 0),
    }
}
