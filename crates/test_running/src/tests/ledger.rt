//! The rule ledger of two applications that answer each other, call by call. `to_a` takes one sample of `rb` and writes
//! two of `wa`, which it may do twice at first; `to_b` takes two of `ra` and writes one of `wb`.

ghost use Rattle.std.specs.Prelude.{◌≡◌, ◌<◌};

use crate::tests::comparing::expect_equal;
use dds_base::{KeyNo, ReaderNo, RuleNo, WriterNo};
use dds_rules::{FireRefused, Ledger, NoPermit};
use std::alloc::Global;
use std::process::Abort;
use std::test::Fail;
use test_files::plans::planned;
use test_files::texts::LOOP;

/// The places of the two rules.
const TO_A: usize = 0;

const TO_B: usize = 1;

/// The ledger of LOOP at its opening, which has a row for the first reader.
fn opened(rt: &impl Abort, alloc: Global) -> Ledger
    ensures { 0 < result.spare.endpoints }
{
    let plan = planned(alloc, LOOP).expect(rt, "no plan of the deployment");
    assert!(rt; plan.lists().readers() == 2);
    let opened = Ledger::open(alloc, &plan);
    drop(plan);
    match opened {
        Ok(ledger) => ledger,
        Err(_) => panic!(rt; "no memory for the ledger"),
    }
}

fn expect_permits(rt: &impl Abort, ledger: &Ledger, of_wa: u64, of_wb: u64) {
    let of_first = ledger.permits(WriterNo::new(0), KeyNo::new(0));
    expect_equal(rt, of_first, of_wa, "the permits of wa");
    let of_second = ledger.permits(WriterNo::new(1), KeyNo::new(0));
    expect_equal(rt, of_second, of_wb, "the permits of wb");
}

fn expect_take(rt: &impl Abort, ledger: &mut Ledger)
    requires { 0 < ledger.old.spare.endpoints }
    ensures { ledger.new.spare.endpoints ≡ ledger.old.spare.endpoints }
{
    let answer = ledger.note_take(ReaderNo::new(0), KeyNo::new(0));
    expect_equal(rt, answer.is_ok(), true, "a take");
}

fn expect_fire(rt: &impl Abort, ledger: &mut Ledger, rule: usize, expected: Result<(), FireRefused>)
    ensures { ledger.new.spare.endpoints ≡ ledger.old.spare.endpoints }
{
    let answer = ledger.fire(RuleNo::new(rule));
    expect_equal(rt, answer, expected, "a firing");
}

fn expect_no_permit(rt: &impl Abort, ledger: &mut Ledger, writer: usize)
    ensures { ledger.new.spare.endpoints ≡ ledger.old.spare.endpoints }
{
    let answer = ledger.use_permit(WriterNo::new(writer), KeyNo::new(0));
    expect_equal(rt, answer, Err(NoPermit), "a write");
}

#[test]
fn a_loop_call_by_call(rt: HostRuntime) -> Result<(), Fail> {
    let mut ledger = opened(&rt, rt.alloc());
    expect_permits(&rt, &ledger, 4, 0);
    expect_no_permit(&rt, &mut ledger, 1);
    expect_take(&rt, &mut ledger);
    expect_fire(&rt, &mut ledger, TO_B, Err(FireRefused::NotEnough));
    expect_take(&rt, &mut ledger);
    expect_fire(&rt, &mut ledger, TO_B, Ok(()));
    let spare = ledger.spare(ReaderNo::new(0), KeyNo::new(0));
    expect_equal(&rt, spare, 0, "spare takes");
    expect_permits(&rt, &ledger, 4, 1);
    expect_fire(&rt, &mut ledger, TO_A, Err(FireRefused::NotEnough));
    Ok(())
}
