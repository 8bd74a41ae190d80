//! Runs two threads that are to meet, and the workload, with several numbers of workers, and prints what comes of each.
#![tactic(auto)]

mod making;

use crate::making::{Forms, make, prepare, run, tell, texts};
use ap_base::ThreadNo;
use run_fixture::{MeetingGate, listed};
use run_history::NoWatch;
use std::alloc::{AllocError, Global};
use std::sync::Wait;
use std::test::Fail;
use std::thread::Threads;

/// `main` starts two threads and joins both; each makes three arrays, in a turn each.
const WALKERS: &str = ".class Walker\n.super java/lang/Thread\n\
    .method <init> ()V 1 1\naload_0\ninvokespecial java/lang/Thread <init> ()V\nreturn\n.end\n\
    .method run ()V 1 1\niconst_3\nnewarray int\npop\niconst_3\nnewarray int\npop\n\
    iconst_3\nnewarray int\npop\nreturn\n.end\n\
    .class Main\n.super java/lang/Object\n\
    .method main ([Ljava/lang/String;)V 2 3 static\n\
    new Walker\ndup\ninvokespecial Walker <init> ()V\nastore_1\n\
    new Walker\ndup\ninvokespecial Walker <init> ()V\nastore_2\n\
    aload_1\ninvokevirtual Walker start ()V\naload_2\ninvokevirtual Walker start ()V\n\
    aload_1\ninvokevirtual Walker join ()V\naload_2\ninvokevirtual Walker join ()V\nreturn\n.end\n";

/// How often one of two threads that are to meet looks for the other where one worker runs both, and where two do.
const FEW: u64 = 10;

const MANY: u64 = 200_000_000;

/// The words that run class Main with so many workers.
fn words(alloc: Global, workers: &str) -> Result<Vec<String>, AllocError> {
    let words = [
        "autopersist",
        "run",
        "--image",
        "F",
        "--main",
        "Main",
        "--workers",
        workers,
        "DIR",
    ];
    texts(alloc, &words)
}

/// The classes of that listing, on an image of zeros.
fn walkers(alloc: Global) -> Result<Forms, Fail> {
    let source = listed(alloc, WALKERS)?;
    Ok(prepare(alloc, source, 2_000)?)
}

/// Whether threads 1 and 2 met before their second turns, where so many workers run them, and how the run ended.
fn meet<R>(rt: &R, alloc: Global, workers: &str, looks: u64) -> Result<String, Fail>
where
    R: Threads + Wait + Clone + Send + Sync + Drop,
{
    let (Some(first), Some(second)) = (ThreadNo::new(1), ThreadNo::new(2)) else {
        return Err("two threads".into());
    };
    let gate = MeetingGate::new(first, second, 2, looks);
    let words = words(alloc, workers)?;
    let walkers = walkers(alloc)?;
    let (_, ended) = run(rt, alloc, &words, walkers, &gate, NoWatch);
    let text = tell(alloc, &ended)?;
    let met = gate.met();
    Ok(format!(in alloc; "== met {met} with {workers} workers\n{text}")?)
}

fn main(rt: HostRuntime) -> Result<(), Fail> {
    for (workers, looks) in [("1", FEW), ("2", MANY), ("64", MANY)] {
        let told = meet(&rt, rt.alloc(), workers, looks)?;
        print!(rt; "{told}")?;
    }
    let mut turns = [0; 3];
    for (i, workers) in ["1", "4", "64"].iter().enumerate() {
        let (told, made) = make(&rt, rt.alloc(), workers, "50", 2_000)?;
        print!(rt; "{told}")?;
        if i < 3 {
            turns[i] = made;
        }
    }
    let [one, four, many] = turns;
    println!(rt; "== as many turns {} {}", four == one, many == one)?;
    for (count, room) in [("1000", 40_000), ("5000", 200_000)] {
        let (told, _) = make(&rt, rt.alloc(), "4", count, room)?;
        print!(rt; "{told}")?;
    }
    Ok(())
}
