/// Where a node stands: it is the root, or the record of that number in the pool, to which a VCN led.
#[derive(Clone, Copy, Debug, PartialEq, Eq)]
pub enum Place {
    Root,
    Record { number: usize, vcn: i64 },
}
