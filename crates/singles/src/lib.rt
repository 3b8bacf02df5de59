// The value of a name that exactly one field has.
#![tactic(auto)]

ghost use Rattle.std.specs.Prelude.{◌≡◌};
ghost use Rattle.singles.specs.Single.{single};

use maps::HeaderMap;

// The value of the only field of a name: without one, with more, or refused, no octets. An arm for each: behind a joined one the prover has
// lost which it was.
pub fn only_value<'a>(m: HeaderMap, block: &'a [u8], store: &'a [u8], name: &[u8]) -> &'a [u8]
    ensures { result.now ≡ single m block.now store.now name.now }
{
    match lookups::sight(m, block, store, name, 0) {
        Ok(Some((first, field))) => match lookups::find(m, block, store, name, first + 1) {
            Ok(None) => maps::part(block, store, field.value),
            Ok(Some(_)) => &block[0..0],
            Err(_) => &block[0..0],
        },
        Ok(None) => &block[0..0],
        Err(_) => &block[0..0],
    }
}
