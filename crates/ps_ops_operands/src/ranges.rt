//! Places in sequences, which have at most 65,535 elements (PLRM2, appendix B).

ghost use Rattle.std.specs.Prelude.{◌≡◌, ◌+◌, ◌<◌, ◌≤◌, IfSome};
ghost use Rattle.ps_language.specs.Readers as readers;
ghost use Rattle.ps_language.specs.RowsSequences as sequences;

/// The most elements of an array.
pub const SEQUENCE_LIMIT: usize = 65_535;

/// A number as an index below a count.
#[inline]
pub fn index_below(number: i32, count: u16) -> Option<u16>
    ensures index { result ≡ readers.index_below number count }
    ensures below { IfSome result (λ index. index < count) }
{
    let index = number.cast_unsigned();
    if index < count as u32 {
        Some(index as u16)
    } else {
        None
    }
}

/// The place of an interval that lies within so many elements.
#[inline]
pub fn interval_within(number: i32, count: u32, size: u16) -> Option<u16>
    ensures place { result ≡ sequences.interval_within number count size }
    ensures within { IfSome result (λ place. place + count ≤ size) }
{
    match u16::try_from(number) {
        Ok(place) if place as u64 + count as u64 <= size as u64 => Some(place),
        _ => None,
    }
}
