//! What varies, as it is written, and the texts of combinations.

use leastfault_sweep::{Plan, read_varied};
use lf_sweep::text_of;
use std::alloc::{AllocError, Global};
use std::process::Abort;

/// What is found at the row is what it says. Each comparison ends here: an assertion is dear to prove.
fn agrees(rt: &impl Abort, truth: bool, row: &str) {
    assert!(rt; truth, "at {row}");
}

/// The words of all combinations of what a row says that varies, with `,` between those of one and `;` between combinations; or `refused`.
fn words_of(alloc: Global, texts: &str) -> Result<String, AllocError> {
    let mut varied = Vec::new(alloc);
    for text in texts.split(' ') {
        let Ok(one) = read_varied(alloc, text) else {
            return String::from_str(alloc, "refused");
        };
        if varied.push(one).is_err() {
            return Err(AllocError);
        }
    }
    let Ok(plan) = Plan::new(varied) else {
        return String::from_str(alloc, "refused");
    };
    let mut told = String::new(alloc);
    for number in 0..plan.count().min(12) {
        if number > 0 {
            told.push(';')?;
        }
        let words = plan.words(alloc, number)?;
        let mut is_first = true;
        for word in words.as_slice() {
            if !is_first {
                told.push(',')?;
            }
            is_first = false;
            told.push_str(word.as_str())?;
        }
    }
    Ok(told)
}

#[test]
fn the_last_that_varies_runs_fastest(rt: HostRuntime) {
    let rows = concat!(
        "patience=1..3|1;2;3\n",
        "patience=3..3|3\n",
        "patience=2,4,6|2;4;6\n",
        "crashes=0..1 seed=7,8,9|0,7;0,8;0,9;1,7;1,8;1,9\n",
        "a=1,2 b=x,y c=0..1|1,x,0;1,x,1;1,y,0;1,y,1;2,x,0;2,x,1;2,y,0;2,y,1\n",
        "given.stable=true,false|true;false\n",
        "a=b=c|b=c\n",
        "given.enter=[5,2,9],[2,5,9]|[5,2,9];[2,5,9]\n",
        "a=[[1,2],[3]],[],4|[[1,2],[3]];[];4\n",
        "a={p=1,q=[2,3]},{p=3}|{p=1,q=[2,3]};{p=3}\n",
        "a=\"x,y\",z b='p,q',\"\"|\"x,y\",'p,q';\"x,y\",\"\";z,'p,q';z,\"\"\n",
        "a=1,\"2..3\"|1;\"2..3\"\n",
        "a=[1,2|refused\n",
        "a=[1,2]3|refused\n",
        "a=x[1,2]|refused\n",
        "a={0,1}|refused\n",
        "a=1,]|refused\n",
        "a=\"x,y|refused\n",
        "a=1,2..3|refused\n",
        "a=1 b=2 a=3|refused\n",
        "given.a=1 given.a=2|refused\n",
        "given=1 given.a=2|refused\n",
        "given.a.b=1 given.a=2|refused\n",
        "a=1 a.b=2|refused\n",
        "a=1 ab=2 given.a=3 given.ab=4|1,2,3,4\n",
        "patience|refused\n",
        "=1|refused\n",
        "given.=1|refused\n",
        "patience=|refused\n",
        "patience=1,,2|refused\n",
        "patience=1..|refused\n",
        "patience=2..1|refused\n",
        "patience=1..x|refused\n",
        "seed=0..1000000|refused\n",
        "a=1..100000 b=1..100000|refused\n",
    );
    for row in rows.lines() {
        let (texts, wanted) = row.split_once('|').unwrap_or((row, ""));
        let is_right = match words_of(rt.alloc(), texts) {
            Ok(told) => told.as_str() == wanted,
            Err(_) => false,
        };
        agrees(&rt, is_right, row);
    }
}

/// The text of a scenario in which one thing varies that takes one value, or why there is none.
fn varied_text(alloc: Global, scenario: &str, text: &str) -> Result<String, AllocError> {
    let Ok(one) = read_varied(alloc, text) else {
        return Err(AllocError);
    };
    let mut varied = Vec::new(alloc);
    if varied.push(one).is_err() {
        return Err(AllocError);
    }
    let Ok(plan) = Plan::new(varied) else {
        return Err(AllocError);
    };
    let words = plan.words(alloc, 0)?;
    match text_of(alloc, scenario.as_bytes(), plan.varied(), words.as_slice()) {
        Ok(text) => Ok(text),
        Err(error) => format!(in alloc; "{error}"),
    }
}

#[test]
fn a_value_stands_in_place_of_what_stood_there(rt: HostRuntime) {
    let rows = concat!(
        "nodes = 3|nodes=2|nodes = 2\n",
        "nodes = 3|budget=2|budget = 2;nodes = 3\n",
        "nodes = 3|outcome=delivered|nodes = 3;outcome = \"delivered\"\n",
        "nodes = 3|quick=true|nodes = 3;quick = true\n",
        "nodes = 3|seed=17|nodes = 3;seed = \"0000000000000000000000000000000000000000000000000000000000000017\"\n",
        "nodes = 3|given.stable=false|nodes = 3;;[given];stable = false\n",
        "given = { a = 1, b = 2 }|given.a=3|[given];a = 3;b = 2\n",
        "given = 5|given.a=3|[given];a = 3\n",
        "votes = [true, false]|crashes=1|crashes = 1;votes = [true, false]\n",
        "nodes = 3|votes=[true,false]|nodes = 3;votes = [true, false]\n",
        "nodes = 3|given.enter=[5,2,9]|nodes = 3;;[given];enter = [5, 2, 9]\n",
        "nodes = 3|outcome=\"a,b\"|nodes = 3;outcome = \"a,b\"\n",
        "nodes = = 3|nodes=2|the scenario is not TOML\n",
    );
    for row in rows.lines() {
        let (scenario, rest) = row.split_once('|').unwrap_or((row, ""));
        let (text, wanted) = rest.split_once('|').unwrap_or((rest, ""));
        let is_right = match varied_text(rt.alloc(), scenario, text) {
            Ok(told) => told.as_str().trim_end().lines().eq(wanted.split(';')),
            Err(_) => false,
        };
        agrees(&rt, is_right, row);
    }
}
