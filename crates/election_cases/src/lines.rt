//! The lines of a run.

use crate::cluster::{Cluster, Named, Store};
use std::alloc::AllocError;
use std::str::SplitWhitespace;

/// The number that the next word is; another one where there is no word, or it is no number.
fn number_or(words: &mut SplitWhitespace<'_>, other: u64) -> u64 {
    match words.next() {
        Some(word) => word.parse::<u64>().unwrap_or(other),
        None => other,
    }
}

/// The number of a node, that the next word is.
fn node_of(words: &mut SplitWhitespace<'_>) -> u8 {
    number_or(words, 0).min(255) as u8
}

/// What a store has, as the next words tell it; none where there is no word.
fn store_of(words: &mut SplitWhitespace<'_>) -> Option<Store> {
    let promised = words.next()?.parse::<u64>().unwrap_or(0);
    let accepted = number_or(words, 0);
    let length = number_or(words, 0);
    Some(Store {
        promised,
        accepted,
        length,
    })
}

/// The last fact of a kind.
fn last<'a>(kind: &'a str, sender: u8, generation: u64) -> Named<'a> {
    Named {
        kind,
        sender,
        generation,
        back: 0,
    }
}

/// Takes a line, and adds its answer.
pub(crate) fn take(cluster: &mut Cluster, line: &str, out: &mut String) -> Result<(), AllocError> {
    if line.is_empty() || line.starts_with('#') {
        return Ok(());
    }
    writeln!(out, "{line}")?;
    let mut words = line.split_whitespace();
    let word = words.next().unwrap_or("");
    match word {
        "case" => Ok(()),
        "nodes" => cluster.begin(node_of(&mut words)),
        "ask" => {
            cluster.ask();
            Ok(())
        }
        "again" => cluster.again(out),
        _ => take_step(cluster, word, words, out),
    }
}

/// Takes a line of one node.
fn take_step(
    cluster: &mut Cluster,
    word: &str,
    words: SplitWhitespace<'_>,
    out: &mut String,
) -> Result<(), AllocError> {
    let mut words = words;
    let node = node_of(&mut words);
    match word {
        "stand" => cluster.stand(node, number_or(&mut words, 0), out),
        "append" => cluster.append(node, out),
        "down" => cluster.down(node, out),
        "restart" => cluster.restart(node, store_of(&mut words), out),
        "probe" => cluster.probe(node, out),
        "hear" => {
            let kind = words.next().unwrap_or("");
            let sender = node_of(&mut words);
            let generation = number_or(&mut words, 0);
            let back = number_or(&mut words, 0);
            let named = Named {
                kind,
                sender,
                generation,
                back,
            };
            cluster.hear(node, named, out)
        }
        "elect" => elect(
            cluster,
            node,
            number_or(&mut words, 0),
            node_of(&mut words),
            out,
        ),
        "copy" => copy(
            cluster,
            node,
            number_or(&mut words, 0),
            node_of(&mut words),
            out,
        ),
        _ => out.push_str("  no line of a run\n"),
    }
}

/// A node stands, hears its own grant, and that of a voter, who heard its vote.
fn elect(
    cluster: &mut Cluster,
    node: u8,
    generation: u64,
    voter: u8,
    out: &mut String,
) -> Result<(), AllocError> {
    cluster.stand(node, generation, out)?;
    cluster.hear(node, last("granted", node, generation), out)?;
    cluster.hear(voter, last("vote", node, generation), out)?;
    cluster.hear(node, last("granted", voter, generation), out)
}

/// A follower hears the log that a leader shipped, and the leader hears both acknowledgements.
fn copy(
    cluster: &mut Cluster,
    leader: u8,
    generation: u64,
    follower: u8,
    out: &mut String,
) -> Result<(), AllocError> {
    cluster.hear(follower, last("ship", leader, generation), out)?;
    cluster.hear(leader, last("ack", leader, generation), out)?;
    cluster.hear(leader, last("ack", follower, generation), out)
}
