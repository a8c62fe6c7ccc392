//! A case: its lines, and what three nodes do by them.
ghost use Rattle.std.specs.Prelude.{◌≡◌};
ghost use Rattle.node_cases.specs.Plans.{setting_of};

use crate::lines::put_line;
use crate::openings::Unopened;
use crate::orders::{Order, orders_in};
use crate::runs::{Run, opened};
use actor_trace::{Naming, OpenedTrace};
use cluster_core::{Cluster, Plan};
use std::alloc::{AllocError, Global};
use std::marker::Brand;

/// The lines of all cases, each with what it comes to below it. A case goes to the next empty line.
pub(crate) fn all_told(alloc: Global, text: &str) -> Result<String, AllocError> {
    let mut out = String::new(alloc);
    let mut case = Vec::new(alloc);
    for line in text.lines() {
        if line.is_empty() {
            put_case(alloc, case.as_slice(), &mut out)?;
            out.push('\n')?;
            case.clear();
        } else {
            case.push(String::from_str(alloc, line)?)?;
        }
    }
    put_case(alloc, case.as_slice(), &mut out)?;
    Ok(out)
}

/// Adds the lines of a case.
fn put_case(alloc: Global, lines: &[String], out: &mut String) -> Result<(), AllocError> {
    let orders = orders_in(alloc, lines)?;
    planned::<Brand>(alloc, lines, orders, out)
}

/// The same of the plan that has these orders.
fn planned<J: Plan>(
    alloc: Global,
    lines: &[String],
    orders: Vec<Order>,
    out: &mut String,
) -> Result<(), AllocError>
    requires { J.setting ≡ setting_of orders.items }
{
    let history = OpenedTrace::<Cluster<J>>::new(alloc, 5)?;
    named::<J, Brand>(alloc, history, lines, orders, out)
}

/// The same in a history of that name.
fn named<J: Plan, N: Naming>(
    alloc: Global,
    history: OpenedTrace<Cluster<J>>,
    lines: &[String],
    orders: Vec<Order>,
    out: &mut String,
) -> Result<(), AllocError>
    requires plan { J.setting ≡ setting_of orders.items }
    requires table { history.table ≡ N.table }
    requires actors { (history.actors ≡ N.actors) × (history.actors ≡ 5) }
{
    match opened::<J, N>(alloc, history, lines, orders) {
        Ok(run) => put_run(alloc, run, lines, out),
        Err(Unopened::NoMemory) => Err(AllocError),
        Err(Unopened::Fault) => out.push_str("a store failed at the opening\n"),
    }
}

/// Adds the lines, and what they come to.
fn put_run<J: Plan, N: Naming>(
    alloc: Global,
    mut run: Run<J, N>,
    lines: &[String],
    out: &mut String,
) -> Result<(), AllocError> {
    put_lines(alloc, &mut run, lines, out)
}

/// Adds each line, and what it comes to.
fn put_lines<J: Plan, N: Naming>(
    alloc: Global,
    run: &mut Run<J, N>,
    lines: &[String],
    out: &mut String,
) -> Result<(), AllocError> {
    for line in lines {
        let line = line.as_str();
        writeln!(out, "{line}")?;
        put_line(alloc, run, line, out)?;
    }
    Ok(())
}
