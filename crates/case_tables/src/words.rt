// Words of questions.
use crate::case_fault::CaseFault;
use crate::cells::{number_of, numbered};
use std::alloc::Global;

fn put_numbered(
    alloc: Global,
    list: &mut Vec<String>,
    count: &str,
    word: &str,
) -> Result<(), CaseFault> {
    for number in 0..number_of(count)? {
        list.push(numbered(alloc, word, number)?)?;
    }
    Ok(())
}

/// Words as arguments; `3*s#.sch` is `s0.sch s1.sch s2.sch`.
pub fn arguments_of(alloc: Global, words: &str) -> Result<Vec<String>, CaseFault> {
    let mut list = Vec::new(alloc);
    for word in words.split_whitespace() {
        match word.split_once('*') {
            Some((count, word)) => put_numbered(alloc, &mut list, count, word)?,
            None => list.push(String::from_str(alloc, word)?)?,
        }
    }
    Ok(list)
}

/// The numbers of the calls of one of those that may fail which are to fail: `folder:2` names the
/// second call of `folder`.
pub fn failing_calls(alloc: Global, failing: &str, whose: &str) -> Result<Vec<u64>, CaseFault> {
    let mut calls = Vec::new(alloc);
    for word in failing.split_whitespace() {
        let (name, number) = word.split_once(':').ok_or(CaseFault::BadCase)?;
        if name == whose {
            calls.push(u64::from(number_of(number)?))?;
        }
    }
    Ok(calls)
}
