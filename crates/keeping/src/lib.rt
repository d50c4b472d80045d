// Which copies of a case to keep.
#![tactic(auto)]

mod dates;
mod days;
mod rule;

ghost use Rattle.std.specs.Prelude.{◌≡◌, not};
ghost use Rattle.octets.specs.Octets.{splice};
ghost use Rattle.keeping.specs.Call.{wrong_lengths, kept_count, flags, left, keep_call};
ghost use Rattle.keeping.specs.Days.{Ready, days_call};

use answers::{Answer, Refusal};

const MOST_COPIES: usize = 256;

const MOST_TERM_DAYS: usize = 2 * rule::MOST_TERMS;

fn allowed_lengths(copies: usize, terms: usize, out: usize) -> bool
    ensures { result ≡ not (wrong_lengths copies terms out) }
{
    copies <= MOST_COPIES && terms <= MOST_TERM_DAYS && terms % 2 == 0 && copies <= out
}

// Says of each copy whether it is kept, and answers how many are: one walk to see which are looked at,
// one for each term, and one to decide.
fn decide(days: &[u16], terms: &[u16], today: usize, out: &mut [u8]) -> usize
    requires { Ready days.now terms.now out.old }
    ensures value { result ≡ kept_count days.now terms.now today }
    ensures out_after { out.new ≡ splice out.old 0 (flags days.now terms.now today) }
{
    // no copy to decide on, and no map to lay out
    if days.is_empty() {
        return 0;
    }
    let mut map = [0u64; days::DAY_WORDS];
    rule::look_at(days, &mut map, out);
    let mut latest = [0u16; rule::MOST_TERMS];
    rule::latest_days(days, terms, &mut latest);
    rule::settle(days, terms, today, &map, &latest, out)
}

// The answer for days, once all dates are known to be dates.
fn answer(days: &[u16], terms: &[u16], today: usize, out: &mut [u8]) -> Answer
    requires { Ready days.now terms.now out.old }
    ensures { left result out.new ≡ days_call days.now terms.now today out.old }
{
    if !dates::in_order(terms) {
        return Err(Refusal::BadTerms);
    }
    if !dates::none_after(days, today) {
        return Err(Refusal::AfterAsked);
    }
    Ok(decide(days, terms, today, out))
}

// Copies in list order, terms as first and last day; a date is year × 10,000 + month × 100 + day.
// Writes 1 for each copy that is kept and 0 for each that goes, and answers how many are kept.
pub fn keep(copies: &[u32], terms: &[u32], asked: u32, out: &mut [u8]) -> Answer
    ensures { left result out.new ≡ keep_call copies.now terms.now asked out.old }
{
    let n = copies.len();
    let m = terms.len();
    if !allowed_lengths(n, m, out.len()) {
        return Err(Refusal::BadBuffer);
    }
    let mut copy_days = [0u16; MOST_COPIES];
    let mut term_days = [0u16; MOST_TERM_DAYS];
    let Some(day) = dates::read_all(copies, terms, asked, &mut copy_days, &mut term_days) else {
        return Err(Refusal::NoDate);
    };
    answer(&copy_days[..n], &term_days[..m], usize::from(day), out)
}
