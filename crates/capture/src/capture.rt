ghost use Rattle.std.specs.Prelude.{◌≡◌, ◌≤◌, ◌<◌, ◌+◌, ◌++◌, length, take, drop, option_map, IfSome, IsTrue};
ghost use Rattle.std.specs.List.{concat};
ghost use Rattle.capture.specs.Format.{split_field, fields_of, is_one_head, fits_pool, records_in, record_size_in, records_of, captured, captured_fields, put_over, head_size, most_pool};

/// What stands before a field's bytes: its tag, and their number in two bytes.
const HEAD_SIZE: usize = 3;

const ROOT: u8 = 1;

const CLUSTER_SIZE: u8 = 2;

const RECORD: u8 = 3;

/// The last field: of tag 255, and with no bytes.
const END: &[u8] = &[255, 0, 0];

const MOST_BYTES: usize = 65535;

const MOST_POOL: usize = 57344;

/// A capture, as parts of its bytes.
#[derive(Clone, Copy, Debug, PartialEq, Eq)]
pub struct Capture<'a> {
    pub root: &'a [u8],
    /// 0 where there are no records.
    pub cluster_size: u32,
    /// The fields of the records, end to end: three bytes of head and a record each.
    pub fields: &'a [u8],
    /// How many bytes a record has.
    pub record_size: usize,
    ghost fit: { length (concat (records_of record_size fields.now)) ≤ most_pool },
    ghost size: { record_size < 65536 },
}

/// The bytes of the field in front, if it has this tag, and what follows it.
#[tactic(auto, unfolding(crate::specs::Format::split_field))]
fn split_field(input: &[u8], tag: u8) -> Option<(&[u8], &[u8])>
    ensures is { option_map (λ parts. (parts.0.now, parts.1.now)) result ≡ split_field input.now tag }
    ensures inside { IfSome result (λ parts. head_size + length parts.0.now ≤ length input.now) }
    ensures size { IfSome result (λ parts. length parts.0.now < 65536) }
{
    let (head, rest) = input.split_first_chunk::<HEAD_SIZE>()?;
    let [first, low, high] = *head;
    if first != tag {
        return None;
    }
    rest.split_at_checked(usize::from(u16::from_le_bytes([low, high])))
}

/// Whether each of the fields has the head of the first.
#[tactic(auto, using(crate::proofs::Laws::next_field, crate::proofs::Laws::no_field), unfolding(crate::specs::Format::is_one_head))]
fn is_one_head(fields: &[u8], width: usize) -> bool
    requires { (head_size ≤ width) × (head_size ≤ length fields.now) }
    ensures { result ≡ is_one_head width fields.now }
{
    let head = &fields[..HEAD_SIZE];
    for field in fields.chunks_exact(width) {
        if !field.starts_with(head) {
            return false;
        }
    }
    true
}

/// Whether these are fields of one size that fit a pool.
#[tactic(auto, using(crate::proofs::Laws::pool_long, crate::proofs::Laws::pool_within), unfolding(crate::specs::Format::fits_pool))]
fn fits_pool(fields: &[u8], size: usize) -> bool
    requires { head_size + size ≤ length fields.now }
    ensures value { result ≡ fits_pool size fields.now }
    ensures fit { IsTrue result → length (concat (records_of size fields.now)) ≤ most_pool }
{
    let width = HEAD_SIZE + size;
    if fields.len() % width != 0 {
        return false;
    }
    fields.len() / width * size <= MOST_POOL
}

/// The size of the records whose fields these are: one or more, all of one size, that fit a pool.
#[tactic(auto, unfolding(crate::specs::Format::records_in, crate::specs::Format::record_size_in))]
fn record_size(fields: &[u8]) -> Option<usize>
    ensures is { option_map (λ size. records_of size fields.now) result ≡ records_in fields.now }
    ensures value { result ≡ record_size_in fields.now }
    ensures fit { IfSome result (λ size. length (concat (records_of size fields.now)) ≤ most_pool) }
    ensures size { IfSome result (λ size. size < 65536) }
{
    let (first, _) = split_field(fields, RECORD)?;
    let size = first.len();
    if fits_pool(fields, size) && is_one_head(fields, HEAD_SIZE + size) {
        Some(size)
    } else {
        None
    }
}

/// Writes the bytes from place `at` on.
fn put_at(pool: &mut [u8], at: usize, bytes: &[u8])
    requires { at + length bytes.now ≤ length pool.old }
    ensures { pool.new ≡ take at pool.old ++ bytes.now ++ drop (at + length bytes.now) pool.old }
{
    pool[at..at + bytes.len()].copy_from_slice(bytes);
}

impl<'a> Capture<'a> {
    ghost use Rattle.capture.specs.Contents.{contents_of, parts_of};

    /// Every byte of the input is accounted for, or there is none.
    #[tactic(auto, unfolding(crate::specs::Format::captured, crate::specs::Format::captured_fields))]
    pub(crate) fn read(input: &'a [u8]) -> Option<Capture<'a>>
        ensures is { option_map contents_of result ≡ captured input.now }
        ensures parts { option_map parts_of result ≡ captured_fields input.now }
    {
        if input.len() > MOST_BYTES {
            return None;
        }
        let (root, rest) = split_field(input, ROOT)?;
        if rest == END {
            return Some(Capture {
                root,
                cluster_size: 0,
                fields: &[],
                record_size: 0,
            });
        }
        let (cluster, rest) = split_field(rest, CLUSTER_SIZE)?;
        let cluster_size = u32::from_le_bytes(cluster.try_into().ok()?);
        let fields = rest.strip_suffix(END)?;
        let record_size = record_size(fields)?;
        Some(Capture {
            root,
            cluster_size,
            fields,
            record_size,
        })
    }

    /// The records, end to end, at the pool's start; the rest of the pool stays as it is. The answer is their bytes' number.
    pub fn copy_pool(&self, pool: &mut [u8; 57344]) -> usize
        ensures value { result ≡ length (concat (contents_of self.now).records) }
        ensures pool_after { pool.new ≡ put_over pool.old (concat (contents_of self.now).records) }
    {
        let mut end = 0;
        for field in self.fields.chunks_exact(HEAD_SIZE + self.record_size) {
            let record = &field[HEAD_SIZE..];
            put_at(pool, end, record);
            end += record.len();
        }
        end
    }
}
