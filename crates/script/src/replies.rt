// The lines that answer in every script program: a line that is none of its language, and a call that is refused.

ghost use Rattle.cells.specs.Causes.{number_of};
ghost use Rattle.script.specs.Answers.{bad_text, refused_text};
ghost use Rattle.script.specs.Pages.{same_bytes, Written};

use crate::writing::Page;
use cells::refusal::Refusal;

pub fn bad_line(page: &mut Page)
    ensures bytes { same_bytes page.old page.new }
    ensures written { Written page.old bad_text page.new }
{
    page.line(b"bad line", &[], b"", &[], b"");
}

pub fn refused(page: &mut Page, cause: Refusal)
    ensures bytes { same_bytes page.old page.new }
    ensures written { Written page.old (refused_text (number_of cause)) page.new }
{
    page.line(b"refused", &[u64::from(cause)], b"", &[], b"");
}
