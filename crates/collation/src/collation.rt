ghost use Rattle.std.specs.Prelude.{◌≡◌, ℕ, List};
ghost use Rattle.std.specs.Cmp.{IsTotalOrder};
ghost use Rattle.collation.specs.Kind.{Kind, is_readable, name_to_key, key_to_key};

use refusal::Refusal;
use std::cmp::Ordering;

/// A kind of key. What a key reads as is a name, and names have a total order.
pub trait Collation {
    /// A name that is sought.
    type Sought: Copy;

    ghost kind: { Self → Kind (List ℕ) };

    ghost name: { Self.Sought → List ℕ };

    /// How a sought name stands to a key, which is read before it is compared.
    fn compare_sought(&self, sought: Self::Sought, key: &[u8]) -> Result<Ordering, Refusal>
        ensures { result ≡ name_to_key (kind self.now) (name sought) key.now };

    /// Whether a key can be read.
    fn check_key(&self, key: &[u8]) -> Result<(), Refusal>
        ensures { result ≡ is_readable (kind self.now) key.now };

    /// How a key stands to another.
    fn compare_keys(&self, key: &[u8], other: &[u8]) -> Result<Ordering, Refusal>
        ensures { result ≡ key_to_key (kind self.now) key.now other.now };

    ghost total: { (collation : Self) → IsTotalOrder ((kind collation).order) };
}
