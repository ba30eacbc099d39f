use push_links::{Held, Next};
use std::alloc::AllocError;

/// What is given next, as text.
fn next(held: &mut Held<u8>) -> &'static str {
    match held.next() {
        Next::Item(1) => "one",
        Next::Item(2) => "two",
        Next::Item(_) => "other",
        Next::End => "end",
        Next::Nothing => "nothing",
    }
}

#[test]
fn items_are_given_in_order(rt: HostRuntime) -> Result<(), AllocError> {
    let mut held = Held::new(rt.alloc());
    assert_eq!(rt; next(&mut held), "nothing");
    held.put(1u8)?;
    held.put(2u8)?;
    held.finish();
    for wanted in ["one", "two", "end", "end"] {
        assert_eq!(rt; next(&mut held), wanted);
    }
    Ok(())
}

#[test]
fn an_empty_one_goes_on(rt: HostRuntime) -> Result<(), AllocError> {
    let mut held = Held::new(rt.alloc());
    assert_eq!(rt; next(&mut held), "nothing");
    held.put(2u8)?;
    assert_eq!(rt; next(&mut held), "two");
    assert_eq!(rt; next(&mut held), "nothing");
    Ok(())
}
