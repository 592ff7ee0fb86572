// What texts hold.
use std::test::Fail;
use syntax::take_census;

#[test]
fn the_empty_text_holds_nothing(rt: HostRuntime) -> Result<(), Fail> {
    let census = take_census(b"")?;
    assert_eq!(rt; census.items, 0);
    assert_eq!(rt; census.nesting, 0);
    Ok(())
}

#[test]
fn brackets_alone_hold_forms(rt: HostRuntime) -> Result<(), Fail> {
    let census = take_census(b"()(())")?;
    assert_eq!(rt; census.tokens, 0);
    assert_eq!(rt; census.forms, 3);
    assert_eq!(rt; census.items, 3);
    assert_eq!(rt; census.top_items, 2);
    assert_eq!(rt; census.nesting, 2);
    Ok(())
}

#[test]
fn each_kind_is_counted(rt: HostRuntime) -> Result<(), Fail> {
    let census = take_census(b"(rank \"a b\"\t; eight foot\n\n(pipes 61)) x")?;
    assert_eq!(rt; census.line_ends, 1);
    assert_eq!(rt; census.blanks, 4);
    assert_eq!(rt; census.words, 4);
    assert_eq!(rt; census.quoted, 1);
    assert_eq!(rt; census.comments, 1);
    assert_eq!(rt; census.tokens, 11);
    assert_eq!(rt; census.forms, 2);
    assert_eq!(rt; census.items, 13);
    assert_eq!(rt; census.top_items, 3);
    assert_eq!(rt; census.nesting, 2);
    Ok(())
}
