//! What the operator orders of a node.

use crate::words::node_of;
use std::alloc::{AllocError, Global};

/// A start of a node, or a stop.
#[derive(Clone, Copy, Drop)]
pub(crate) struct Order {
    pub(crate) node: u8,
    pub(crate) starts: bool,
}

/// What the lines order, in their order.
pub(crate) fn orders_in(alloc: Global, lines: &[String]) -> Result<Vec<Order>, AllocError> {
    let mut orders = Vec::new(alloc);
    for line in lines {
        if let Some(order) = order_in(line.as_str()) {
            orders.push(order)?;
        }
    }
    Ok(orders)
}

/// What a line orders.
fn order_in(line: &str) -> Option<Order> {
    let mut words = line.split_whitespace();
    let word = words.next()?;
    if word != "start" && word != "stop" {
        return None;
    }
    let node = node_of(words.next());
    if node < 1 || 3 < node {
        return None;
    }
    Some(Order {
        node,
        starts: word == "start",
    })
}
