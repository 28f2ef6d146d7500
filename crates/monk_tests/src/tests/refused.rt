//! Calls that may be refused memory. `checks/fail_alloc` refuses each request in turn.

mod audits;
mod buffers;
mod halls;
mod logs;
mod pages;
mod pictures;
mod plays;
mod steps;
mod streams;
mod texts;
mod worlds;

use super::jobs::is_answered;
use std::test::Fail;
use streams::{all_pictures, is_drawn, jobs};

/// Prints the name of the next call. It shows in which call a request was refused.
fn begins(rt: &HostRuntime, call: &str) -> Result<(), Fail> {
    println!(rt; "{call}")?;
    Ok(())
}

/// Each call of the crates below the commands has its answer, or hands its fault on.
#[test]
fn each_call(rt: HostRuntime) -> Result<(), Fail> {
    assert!(rt; buffers::buffer(&rt)?);
    assert!(rt; worlds::world(&rt)?);
    assert!(rt; halls::hall(&rt)?);
    assert!(rt; texts::are_read(&rt)?);
    assert!(rt; plays::are_read(&rt)?);
    assert!(rt; logs::log(&rt)?);
    assert!(rt; logs::are_judged(&rt)?);
    assert!(rt; logs::are_completed(&rt)?);
    assert!(rt; audits::are_audited(&rt)?);
    Ok(())
}

/// The same for the commands, and for the calls that make pictures and pages.
#[test]
fn each_command(rt: HostRuntime) -> Result<(), Fail> {
    for job in jobs() {
        begins(&rt, job.name)?;
        assert!(rt; is_answered(&rt, job)?);
    }
    for picture in all_pictures() {
        begins(&rt, picture.name)?;
        assert!(rt; is_drawn(&rt, picture)?);
    }
    assert!(rt; steps::steps(&rt)?);
    assert!(rt; pages::page_of_four(&rt)?);
    assert!(rt; pages::page_of_two(&rt)?);
    assert!(rt; pages::names_of_two(&rt)?);
    assert!(rt; pictures::picture_of_three(&rt)?);
    Ok(())
}
