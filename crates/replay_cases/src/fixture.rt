//! What stays lent from case to case: the memory of a directory, and an upcase table.
ghost use Rattle.std.specs.Prelude.{◌≡◌, length};
ghost use Rattle.replay_cases.specs.Numbers.{number_in};
ghost use Rattle.replay_cases.specs.Lent.{contents_in, pool_in, root_in, sizes_in};
ghost use Rattle.replay_cases.specs.Fixture.{made, memory_after, overwritten, table_after, units_in, unit_of};

use crate::lent::directory_in;
use directory::Directory;

/// The sizes that a memory begins with.
const SIZES: usize = 12;

/// Where a table's upper half begins.
const UPPER_HALF: usize = 32768;

/// A table that is made by a rule.
#[derive(Clone, Copy)]
pub enum MadeTable {
    /// 0x61 to 0x7A lose 32, each other unit stays.
    T,
    Identity,
}

/// What a case may change for those that follow.
#[derive(Clone, Copy)]
pub enum Setup {
    /// Cluster size u32, root length u32, pool length u32, the root, the pool.
    Memory,
    Made(MadeTable),
    LowerHalf,
    UpperHalf,
}

/// A number that no setup has.
#[derive(Clone, Copy, Debug, PartialEq, Eq)]
pub struct UnknownSetup(pub usize);

impl TryFrom<usize> for Setup {
    ghost use Rattle.replay_cases.specs.Fixture.{IsSetupNumbered};

    type Error = UnknownSetup;

    ghost try_from_gives = { IsSetupNumbered };

    fn try_from(number: usize) -> Result<Setup, UnknownSetup> {
        match number {
            1 => Ok(Setup::Memory),
            2 => Ok(Setup::Made(MadeTable::T)),
            3 => Ok(Setup::Made(MadeTable::Identity)),
            4 => Ok(Setup::LowerHalf),
            5 => Ok(Setup::UpperHalf),
            _ => Err(UnknownSetup(number)),
        }
    }
}

/// What stays lent from case to case.
#[derive(Drop)]
pub struct Fixture<'a> {
    pub memory: &'a mut [u8],
    pub table: &'a mut [u16],
}

impl MadeTable {
    /// The unit that the table has for a unit.
    pub fn unit(self, unit: u16) -> u16
        ensures { result ≡ unit_of self unit }
    {
        match self {
            MadeTable::T if (0x61..=0x7A).contains(&unit) => unit - 32,
            _ => unit,
        }
    }

    /// Makes the table as long as it is lent; past 65,536 units it begins anew.
    fn fill(self, table: &mut [u16])
        ensures { table.new ≡ made self (length table.old) }
    {
        for (i, unit) in table.iter_mut().enumerate() {
            *unit = self.unit((i % 65536) as u16);
        }
    }
}

// The bytes over the front of the memory, as many as it holds.
fn write_bytes(memory: &mut [u8], bytes: &[u8])
    ensures { memory.new ≡ overwritten memory.old 0 bytes.now }
{
    let count = bytes.len().min(memory.len());
    memory[..count].copy_from_slice(&bytes[..count]);
}

// The bytes as units over those of the table from a place on, as many as it holds.
fn write_units(table: &mut [u16], from: usize, bytes: &[u8])
    ensures { table.new ≡ overwritten table.old from (units_in bytes.now) }
{
    let (pairs, _) = bytes.as_chunks::<2>();
    let count = pairs.len().min(table.len().saturating_sub(from));
    for (i, pair) in pairs[..count].iter().enumerate() {
        table[from + i] = u16::from_le_bytes(*pair);
    }
}

impl Fixture<'_> {
    /// Changes what is lent as a case says that holds these bytes. Memory and table stay those that were lent, so that their lender has them
    /// changed when the loan ends.
    pub fn set_up(&mut self, setup: Setup, bytes: &[u8])
        ensures memory { self.new.memory.now ≡ memory_after setup bytes.now self.old.memory.now }
        ensures table { self.new.table.now ≡ table_after setup bytes.now self.old.table.now }
        ensures same_memory { self.new.memory.ghost_name ≡ self.old.memory.ghost_name }
        ensures same_table { self.new.table.ghost_name ≡ self.old.table.ghost_name }
    {
        match setup {
            Setup::Memory => write_bytes(&mut self.memory, bytes),
            Setup::Made(table) => table.fill(&mut self.table),
            Setup::LowerHalf => write_units(&mut self.table, 0, bytes),
            Setup::UpperHalf => write_units(&mut self.table, UPPER_HALF, bytes),
        }
    }

    /// The directory in the memory.
    pub fn directory(&self) -> Directory<'_>
        ensures root { result.root.now ≡ root_in (sizes_in self.now.memory.now) (contents_in self.now.memory.now) }
        ensures pool { result.pool.now ≡ pool_in (sizes_in self.now.memory.now) (contents_in self.now.memory.now) }
        ensures cluster_size { result.cluster_size ≡ number_in (sizes_in self.now.memory.now) 0 }
    {
        let memory: &[u8] = self.memory;
        match memory.split_at_checked(SIZES) {
            Some((sizes, contents)) => directory_in(sizes, contents),
            None => directory_in(memory, &[]),
        }
    }
}
