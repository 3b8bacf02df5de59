// What a map tells of the record or the message behind it: status code, reason, content length, record type.
#![tactic(auto)]

pub mod line;

ghost use Rattle.std.specs.Prelude.{◌≡◌};
ghost use Rattle.lookups.specs.Lookups.{handed_out, status_in};
ghost use Rattle.codes.specs.Codes.{coding, reasoning, Phrased, length_of, kind_of};

use leaves::lengths;
use leaves::refusals::Refusal;
use maps::{HeaderMap, Place};
use standard::types;

// The octets of a status; none if it is absent.
pub fn status_text<'a>(status: Option<Place>, block: &'a [u8], store: &'a [u8]) -> &'a [u8]
    ensures { result.now ≡ handed_out block.now store.now (status_in status) }
{
    match status {
        Some(place) => maps::part(block, store, place),
        None => &block[..0],
    }
}

// The status code, if there is one.
#[tactic(auto, using(maps::proofs::GoodLaws::handed_on, crate::proofs::MapLaws::code_fine), unfolding(crate::specs::Codes::coding))]
pub fn status_code<'a>(
    m: HeaderMap,
    block: &'a [u8],
    store: &'a [u8],
) -> Result<Option<u16>, Refusal>
    ensures { result ≡ coding m block.now store.now }
{
    maps::check_done(m, block, store)?;
    let text = status_text(m.status, block, store);
    Ok(line::code_of(text))
}

// Whether there is a reason: an empty one is one.
#[tactic(auto, using(crate::proofs::MapLaws::phrase_is), unfolding(crate::specs::Codes::reasoning))]
pub fn has_reason<'a>(m: HeaderMap, block: &'a [u8], store: &'a [u8]) -> Result<bool, Refusal>
    ensures { result ≡ reasoning m block.now store.now }
{
    match maps::check_done(m, block, store) {
        Ok(()) => {
            let text = status_text(m.status, block, store);
            Ok(line::reason_start(text).is_some())
        }
        Err(e) => Err(e),
    }
}

// The reason, as a part of the block or of the store.
pub fn reason<'a>(m: HeaderMap, block: &'a [u8], store: &'a [u8]) -> &'a [u8]
    ensures { Phrased m block.now store.now block.entry.ref_ptr store.entry.ref_ptr result.now result.ref_ptr }
{
    let text = lookups::status(m, block, store);
    match line::reason_start(text) {
        Some(start) => &text[start..],
        None => &block[0..0],
    }
}

// The content length of the first field of that name, if there is one.
pub fn content_length<'a>(
    m: HeaderMap,
    block: &'a [u8],
    store: &'a [u8],
) -> Result<Option<u64>, Refusal>
    ensures { result ≡ length_of m block.now store.now }
{
    match lookups::sight(m, block, store, b"Content-Length", 0) {
        Ok(Some((_, field))) => {
            let value = maps::part(block, store, field.value);
            Ok(Some(lengths::content_length(value)))
        }
        Ok(None) => Ok(None),
        Err(refusal) => Err(refusal),
    }
}

// The code of a record's type.
pub fn record_type<'a>(m: HeaderMap, block: &'a [u8], store: &'a [u8]) -> Result<u16, Refusal>
    ensures { result ≡ kind_of m block.now store.now }
{
    match lookups::sight(m, block, store, b"WARC-Type", 0) {
        Ok(Some((_, kind))) => {
            let name = maps::part(block, store, kind.value);
            Ok(types::record_type(name))
        }
        Ok(None) => Ok(0),
        Err(refused) => Err(refused),
    }
}
