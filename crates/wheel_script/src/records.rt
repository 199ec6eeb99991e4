// The lines of fired records: four words of an advance's output each.

ghost use Rattle.std.specs.Prelude.{◌+◌, ◌*◌, ◌<◌, ◌≡◌, get_or, drop};
ghost use Rattle.script.specs.Pages.{same_bytes, Written};
ghost use Rattle.wheel.specs.Answers.{record_in, records_in};
ghost use Rattle.wheel_script.specs.Texts.{fired_text, fired_lines};

use script::writing::Page;

// Word f of record i, or 0 where there is none.
fn word(records: &[u64], i: u64, f: u64) -> u64
    requires { f < 4 }
    ensures { result ≡ get_or records.now (i * 4 + f) 0 }
{
    let place = i.saturating_mul(4).saturating_add(f);
    records.get(place as usize).copied().unwrap_or(0)
}

// The line of record i.
fn fired(page: &mut Page, records: &[u64], i: u64)
    ensures bytes { same_bytes page.old page.new }
    ensures written { Written page.old (fired_text (record_in (drop (i * 4) records.now))) page.new }
{
    let cell = word(records, i, 0);
    let ticket = word(records, i, 1);
    let deadline = word(records, i, 2);
    let load = word(records, i, 3);
    page.line(b"fired", &[cell, ticket, deadline, load], b"", &[], b"");
}

// The lines of the first k records.
pub fn fired_lines(page: &mut Page, records: &[u64], k: u64)
    ensures bytes { same_bytes page.old page.new }
    ensures written { Written page.old (fired_lines (records_in k records.now)) page.new }
{
    // No bytes, so that the text ends within the page where there is no record, too.
    page.text(b"");
    for i in 0..k {
        fired(page, records, i);
    }
}
