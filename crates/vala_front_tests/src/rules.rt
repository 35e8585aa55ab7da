// What is printed of some rules, and which of two refusals is the earlier one.

use static_rules::{Refusal, Rule, earlier, rule_name, rule_text};
use std::test::Fail;
use vg_base::Span;

fn refusal(rule: Rule, phase: u8, file: u32, start: u32, end: u32) -> Refusal {
    Refusal {
        rule,
        phase,
        span: Span { file, start, end },
    }
}

#[test]
fn prints_rules(rt: HostRuntime) -> Result<(), Fail> {
    let cases = [
        (Rule::L2, "L2", "text, character or comment without end"),
        (Rule::T14, "T14", "constant expected"),
        (Rule::F4, "F4", "null may go into a place without ?"),
    ];
    for (rule, name, text) in cases {
        assert_eq!(rt; rule_name(rule), name);
        assert_eq!(rt; rule_text(rule), text);
    }
    Ok(())
}

#[test]
fn orders_refusals(rt: HostRuntime) -> Result<(), Fail> {
    let ordered = [
        refusal(Rule::U1, 1, 3, 9, 9),
        refusal(Rule::N5, 2, 0, 0, 0),
        refusal(Rule::N2, 2, 1, 4, 6),
        refusal(Rule::N2, 2, 1, 5, 6),
        refusal(Rule::M3, 2, 1, 5, 7),
        refusal(Rule::N6, 2, 1, 5, 7),
        refusal(Rule::T14, 4, 0, 0, 1),
        refusal(Rule::U1, 4, 0, 0, 1),
        refusal(Rule::O6, 6, 0, 0, 1),
    ];
    for (i, a) in ordered.iter().enumerate() {
        for (j, b) in ordered.iter().enumerate() {
            assert_eq!(rt; earlier(a, b), i < j);
        }
    }
    Ok(())
}
