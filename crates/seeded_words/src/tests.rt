//! Words that an independent program made.
use super::*;
use std::test::Fail;

#[test]
fn draws_four_words_of_seed_seven(rt: HostRuntime) -> Result<(), Fail> {
    let mut words = Words::of_seed(7);
    assert_eq!(rt; words.draw(), 2442223337);
    assert_eq!(rt; words.draw(), 414063806);
    assert_eq!(rt; words.draw(), 2743600285);
    assert_eq!(rt; words.draw(), 3524868804);
    Ok(())
}

#[test]
fn draws_two_words_of_the_greatest_seed(rt: HostRuntime) -> Result<(), Fail> {
    let mut words = Words::of_seed(u64::MAX);
    assert_eq!(rt; words.draw(), 2553256318);
    assert_eq!(rt; words.draw(), 1362994822);
    Ok(())
}
