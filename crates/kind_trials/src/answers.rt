// What the trials hold an answer to.
use chance::kind::Chance;
use refusals::reason::Reason;
use refusals::refusal::Refusal;
use std::fmt::Debug;
use std::test::Fail;

// What is got is what is wanted, or the trial fails.
pub fn is_same<T: PartialEq + Debug + Drop>(got: T, wanted: T) -> Result<(), Fail> {
    if got == wanted {
        return Ok(());
    }
    Err(Fail::new(format_args!("{got:?}, and {wanted:?} is wanted")))
}

// A value with these ends and this age is answered.
pub fn is_value<K: Chance>(got: Result<K, Refusal>, ends: (u64, u64, u64)) -> Result<(), Fail> {
    is_same(got.map(|value| value.ends()), Ok(ends))
}

pub fn is_refused<K: Chance>(got: Result<K, Refusal>, why: Reason) -> Result<(), Fail> {
    is_same(got.map(|value| value.ends()), Err(Refusal::plain(why)))
}

// What adding won with such a weight is answered.
pub fn is_added<K: Chance>(
    sum: &mut K::Sum,
    by: u64,
    wanted: Result<(), Reason>,
) -> Result<(), Fail> {
    is_same(K::add(sum, by, K::won()), wanted.map_err(Refusal::plain))
}
