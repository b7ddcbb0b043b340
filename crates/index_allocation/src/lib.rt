//! The index allocation: the pool of an index's records, and where a VCN leads in it.
#![tactic(auto)]

ghost use Rattle.std.specs.Prelude.{◌≡◌, ◌+◌, ◌*◌, ◌/◌, ◌≤◌, ◌<◌, length, IfOk};
ghost use Rattle.index_allocation.specs.Allocation.{is_size, sizes_judged, allocation_of, block_of, record_in, record_at, placed_in, record_bytes};

use refusal::Refusal;

/// The powers of two from which a size is taken.
const SIZES: [usize; 8] = [512, 1024, 2048, 4096, 8192, 16384, 32768, 65536];

const LARGEST_RECORD_SIZE: usize = 4096;

const LARGEST_CLUSTER_SIZE: usize = 65536;

/// A pool that was seen: whole records, of an allowed size.
#[derive(Clone, Copy, Debug, PartialEq, Eq)]
pub struct IndexAllocation<'a> {
    pool: &'a [u8],
    record_size: usize,
    cluster_size: usize,
    ghost records: { 512 ≤ record_size },
    ghost clusters: { 512 ≤ cluster_size },
}

/// A record that a VCN leads to, not yet read.
#[derive(Clone, Copy, Debug, PartialEq, Eq)]
pub struct PlacedRecord<'a> {
    /// Which record of the pool, from 0.
    pub number: usize,
    /// The VCN that led there.
    pub vcn: i64,
    /// The whole record.
    pub bytes: &'a [u8],
}

/// Whether a size is a power of two from 512 to `most`.
fn is_size(most: usize, size: usize) -> bool
    ensures { result ≡ is_size most size }
{
    SIZES.contains(&size) && size <= most
}

/// The sizes beside a pool of so many bytes that is not empty: 6 and 7.
#[tactic(auto, unfolding(crate::specs::Allocation::sizes_judged))]
pub fn check_sizes(record_size: usize, cluster_size: usize, pool: usize) -> Result<(), Refusal>
    ensures is { result ≡ sizes_judged record_size cluster_size pool }
    ensures records { IfOk result (λ _. 512 ≤ record_size) }
    ensures clusters { IfOk result (λ _. 512 ≤ cluster_size) }
{
    if !is_size(LARGEST_RECORD_SIZE, record_size) || !is_size(LARGEST_CLUSTER_SIZE, cluster_size) {
        return Err(Refusal::SizeNotAllowed);
    }
    if pool % record_size != 0 {
        return Err(Refusal::PoolNotWholeRecords);
    }
    Ok(())
}

/// A VCN without its sign: a negative one lies nowhere, 13.
#[tactic(auto, unfolding(crate::specs::Allocation::block_of))]
pub fn block_number(vcn: i64) -> Result<usize, Refusal>
    ensures { result ≡ block_of vcn }
{
    usize::try_from(vcn).map_err(|_| Refusal::VcnNowhere)
}

/// The number of the record that starts so many clusters into a pool: 13.
///
/// The product is made only where it stays within the pool.
#[tactic(auto, unfolding(crate::specs::Allocation::record_in))]
fn record_from_cluster(
    cluster: usize,
    cluster_size: usize,
    record_size: usize,
    pool: usize,
) -> Result<usize, Refusal>
    requires { (0 < cluster_size) × (0 < record_size) }
    ensures is { result ≡ record_in (cluster * cluster_size) record_size pool }
    ensures inside { IfOk result (λ number. number * record_size + record_size ≤ pool) }
    ensures within { IfOk result (λ number. number < pool / record_size) }
{
    if pool / cluster_size < cluster {
        return Err(Refusal::VcnNowhere);
    }
    let offset = cluster * cluster_size;
    if offset % record_size != 0 || pool - offset < record_size {
        return Err(Refusal::VcnNowhere);
    }
    Ok(offset / record_size)
}

/// The number of the record that a VCN leads to in a pool of so many bytes: 13.
#[tactic(auto, unfolding(crate::specs::Allocation::record_at, crate::specs::Allocation::block_of))]
pub fn record_from_vcn(
    vcn: i64,
    cluster_size: usize,
    record_size: usize,
    pool: usize,
) -> Result<usize, Refusal>
    ensures is { result ≡ record_at vcn cluster_size record_size pool }
    ensures inside { IfOk result (λ number. number * record_size + record_size ≤ pool) }
    ensures within { IfOk result (λ number. number < pool / record_size) }
{
    let cluster = block_number(vcn)?;
    if record_size == 0 || cluster_size == 0 {
        return Err(Refusal::VcnNowhere);
    }
    record_from_cluster(cluster, cluster_size, record_size, pool)
}

#[tactic(auto, unfolding(crate::specs::Allocation::allocation_of))]
impl<'a> IndexAllocation<'a> {
    ghost use Rattle.index_allocation.specs.IndexAllocation.{pool_seen, read, found, place_seen, lent};

    /// A pool with its sizes: 6 and 7.
    pub fn new(
        pool: &'a [u8],
        record_size: usize,
        cluster_size: usize,
    ) -> Result<IndexAllocation<'a>, Refusal>
        ensures { read result ≡ allocation_of pool.now record_size cluster_size }
    {
        check_sizes(record_size, cluster_size, pool.len())?;
        Ok(IndexAllocation {
            pool,
            record_size,
            cluster_size,
        })
    }

    /// The record that a VCN leads to: 13.
    pub fn place(&self, vcn: i64) -> Result<PlacedRecord<'a>, Refusal>
        ensures is { found result ≡ placed_in (pool_seen self.now) vcn }
        ensures within { IfOk result (λ it. it.number < length (pool_seen self.now).pool / (pool_seen self.now).record_size) }
    {
        let number = record_from_vcn(vcn, self.cluster_size, self.record_size, self.pool.len())?;
        let start = number * self.record_size;
        Ok(PlacedRecord {
            number,
            vcn,
            bytes: &self.pool[start..start + self.record_size],
        })
    }

    /// How many records there are.
    pub fn records(&self) -> usize
        ensures { result ≡ length (pool_seen self.now).pool / (pool_seen self.now).record_size }
    {
        self.pool.len() / self.record_size
    }

    /// The bytes of a record, if there is one of that number.
    pub fn record(&self, number: usize) -> Option<&'a [u8]>
        ensures { lent result ≡ record_bytes (pool_seen self.now) number }
    {
        if number >= self.records() {
            return None;
        }
        let start = number * self.record_size;
        Some(&self.pool[start..start + self.record_size])
    }
}
