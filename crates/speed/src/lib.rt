// What the benchmarks time: the library's calls, over and over, for a driver in another language to link.
#![tactic(auto)]

ghost use Rattle.std.specs.Prelude.{◌<◌};

use leaves::refusals::Refusal;
use line_reader::Answer;
use maps::HeaderMap;
use reader::Fed;

// Reads pieces of cut octets of a text, so many, with a map that is used again and begun at each of the text's beginnings; answers how many
// fields the last map has. The map stays where it is: assigned and passed in this form, no call copies it before it begins.
#[unsafe(no_mangle)]
pub extern "C" fn speed_read(
    pieces: usize,
    cut: usize,
    block: &mut [u8],
    store: &mut [u8],
    text: &[u8],
) -> usize {
    let map = HeaderMap::new();
    let mut f = Fed {
        map,
        taken: 0,
        answer: Ok(Answer::More),
    };
    let mut rest = text;
    for _ in 0..pieces {
        if rest.len() == text.len() {
            let made = reader::begin(
                f.map,
                maps::DEFAULT_LIMIT,
                maps::DEFAULT_LIMIT,
                true,
                false,
                block,
                store,
            );
            let m = made.map;
            f.map = m;
        }
        let (piece, more) = rest.split_at(cut.min(rest.len()));
        f = reader::feed(f.map, block, store, piece);
        rest = if more.is_empty() { text } else { more };
    }
    f.map.fields
}

// The map of a text, read whole.
fn map_of(block: &mut [u8], store: &mut [u8], text: &[u8]) -> HeaderMap {
    let begun = reader::begin(
        HeaderMap::new(),
        maps::DEFAULT_LIMIT,
        maps::LARGEST,
        true,
        false,
        block,
        store,
    );
    reader::feed(begun.map, block, store, text).map
}

fn length_found<'a>(
    found: Result<Option<usize>, Refusal>,
    m: HeaderMap,
    block: &'a [u8],
    store: &'a [u8],
) -> usize
    ensures { result < 1024 }
{
    match found {
        Ok(Some(i)) => lookups::value(m, block, store, i).len() % 1024,
        _ => 0,
    }
}

// Looks a name up and its value, so many times, in the map of a text.
#[unsafe(no_mangle)]
pub extern "C" fn speed_find(
    times: usize,
    block: &mut [u8],
    store: &mut [u8],
    text: &[u8],
    name: &[u8],
) -> usize {
    let m = map_of(block, store, text);
    let mut sum = 0;
    for _ in 0..times {
        let found = lookups::find(m, block, store, name, 0);
        sum = length_found(found, m, block, store).wrapping_add(sum) % 65536;
    }
    sum
}

// Sets a field in the map of a text, so many times.
#[unsafe(no_mangle)]
pub extern "C" fn speed_set(
    times: usize,
    block: &mut [u8],
    store: &mut [u8],
    text: &[u8],
    key: &[u8],
    value: &[u8],
) -> usize {
    let m = map_of(block, store, text);
    let mut fields = 0;
    for _ in 0..times {
        fields = edits::set(m, block, store, key, value).map.fields;
    }
    fields
}

// Appends a field to the map of a text and removes it again, so many times.
#[unsafe(no_mangle)]
pub extern "C" fn speed_append(
    times: usize,
    block: &mut [u8],
    store: &mut [u8],
    text: &[u8],
    key: &[u8],
    value: &[u8],
) -> usize {
    let m = map_of(block, store, text);
    let mut fields = 0;
    for _ in 0..times {
        let longer = edits::append(m, block, store, key, value);
        let shorter = edits::remove(longer.map, block, store, key);
        fields = shorter.map.fields;
    }
    fields
}

// Writes the map of a text, so many times: as it was read, or rebuilt.
#[unsafe(no_mangle)]
pub extern "C" fn speed_write(
    times: usize,
    rebuilt: bool,
    block: &mut [u8],
    store: &mut [u8],
    text: &[u8],
    out: &mut [u8],
) -> usize {
    let m = map_of(block, store, text);
    for _ in 0..times {
        if rebuilt {
            let _ = writes::rebuild(m, block, store, out);
        } else {
            let _ = writes::write(m, block, store, out);
        }
    }
    m.fields
}

// Walks over the records of a file, again and again, in pieces of at most cut octets, with so many calls; answers how many octets were taken.
#[unsafe(no_mangle)]
pub extern "C" fn speed_walk(
    calls: usize,
    cut: usize,
    block: &mut [u8],
    store: &mut [u8],
    file: &[u8],
) -> u64 {
    let mut w = walker::start(HeaderMap::new(), maps::LARGEST, 0, block, store).walker;
    let mut total = 0u64;
    // A place, and not the rest of the file: with that the compiler copies the map once more for each call, which took a sixth longer.
    let mut at = 0;
    for _ in 0..calls {
        let Some(rest) = file.get(at..) else { break };
        let r = walker::walk(w, block, store, &rest[..cut.min(rest.len())]);
        let taken = r.taken;
        at = if taken < rest.len() { at + taken } else { 0 };
        total = total.wrapping_add(taken as u64);
        w = r.walker;
    }
    total
}
