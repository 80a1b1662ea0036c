//! The topics of a promise.

ghost use Rattle.std.specs.Prelude.{◌≡◌, ◌++◌, IfOk, min};
ghost use Rattle.std.specs.List.{flat_map};
ghost use Rattle.lf_own_scenario.specs.Topics.{topics_in, count_topics, count_all};

use crate::copying::copied_topic;
use lf_list::Listed;
use lf_promises::Promise;
use lf_rules::{Topic, Topics};
use std::alloc::{AllocError, Global};

/// The topics of a promise: those of its parts from the left. In the promise's formula each has its place among them as its number.
///
/// The error is that memory has run out.
pub fn topics_in(alloc: Global, promise: &Promise) -> Result<Topics, AllocError>
    ensures { IfOk result (λ topics. topics ≡ topics_in promise.now) }
{
    let mut topics = Vec::new(alloc);
    put_topics(alloc, promise, &mut topics)?;
    Ok(Listed::from_vec(topics))
}

/// Puts the topics of a promise behind others.
#[cycle(putting)]
fn put_topics(alloc: Global, promise: &Promise, topics: &mut Vec<Topic>) -> Result<(), AllocError>
    ensures { IfOk result (λ _. topics.new.items ≡ topics.old.items ++ topics_in promise.now) }
{
    match promise {
        Promise::All(parts) | Promise::Any(parts) | Promise::Always(parts) | Promise::Ever(parts) =>
            { put_all(alloc, parts.as_slice(), topics) }
        Promise::Nodes { .. } | Promise::Down { .. } | Promise::At { .. } => Ok(()),
        Promise::One(topic) => {
            let copy = copied_topic(alloc, topic)?;
            match topics.push(copy) {
                Ok(()) => Ok(()),
                Err(_) => Err(AllocError),
            }
        }
    }
}

/// Puts the topics of parts behind others.
#[cycle(putting)]
fn put_all(alloc: Global, parts: &[Promise], topics: &mut Vec<Topic>) -> Result<(), AllocError>
    ensures { IfOk result (λ _. topics.new.items ≡ topics.old.items ++ flat_map topics_in parts.now) }
{
    'parts: for part in parts {
        put_topics(alloc, part, topics)?;
    }
    Ok(())
}

/// How many topics a promise has. Past 2^32 - 1 it is that.
#[cycle(counting)]
pub(crate) fn count_topics(promise: &Promise) -> u32
    ensures { result ≡ min (count_topics promise.now) 4294967295 }
{
    match promise {
        Promise::All(parts) | Promise::Any(parts) | Promise::Always(parts) | Promise::Ever(parts) =>
            { count_all(parts.as_slice()) }
        Promise::Nodes { .. } | Promise::Down { .. } | Promise::At { .. } => 0,
        Promise::One(_) => 1,
    }
}

/// How many topics parts have together.
#[cycle(counting)]
fn count_all(parts: &[Promise]) -> u32
    ensures { result ≡ min (count_all parts.now) 4294967295 }
{
    let mut count: u32 = 0;
    'parts: for part in parts {
        count = count.saturating_add(count_topics(part));
    }
    count
}
