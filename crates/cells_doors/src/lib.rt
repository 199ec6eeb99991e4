// The shared audit for programs in other languages, on plain numbers and lent words: the benchmark links it.
#![tactic(auto)]

ghost use Rattle.std.specs.Prelude.{true, ◌↔◌, ◌≡◌};
ghost use Rattle.cells.specs.Rules.{Sound};

use audits::audit::audit;
use cells::store::Store;

// Whether memory with this head keeps to the rules that every engine shares.
#[unsafe(no_mangle)]
pub extern "C" fn wastelquib_store_audit(
    w: &[u64],
    cells: u64,
    free: u64,
    counter: u64,
    used: u64,
    spare: u64,
) -> bool
    ensures { (result ≡ true) ↔ Sound w.now (record { cells = cells; free = free; counter = counter }) used spare }
{
    let s = Store {
        cells,
        free,
        counter,
    };
    audit(w, s, used, spare)
}
