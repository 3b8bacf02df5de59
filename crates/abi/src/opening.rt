// The first checks of a call that looks at a map that is Done.
ghost use Rattle.std.specs.Prelude.{◌≡◌};
ghost use Rattle.abi.specs.Calls.{open_for};

use leaves::refusals::Refusal;
use lent::heads;

// 3, 2 and 7; 3 for numbers that are no map's too.
pub fn open(head: &[u64], table: &[u32], block: &[u8], store: &[u8]) -> Result<(), Refusal>
    ensures { result ≡ open_for head.now table.now block.now store.now }
{
    if lent::is_sound(head, table) {
        let h = heads::head_at(head);
        return lent::check_done(h, table, block, store);
    }
    Err(Refusal::BadMap)
}
