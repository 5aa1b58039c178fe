// What a procedure means, done with all its reads kept, beside what `direct` prints of it.
ghost use Rattle.std.specs.Prelude.{◌≡◌, length, true, All};
ghost use Rattle.net_graph.specs.Steps.{IsStep};
ghost use Rattle.ijtag_work.specs.Using.{IsUsable, there};

use crate::commands::{DEVICE, DIRECT, MEMORY, MEMORY_TABLES, run};
use crate::failing_makes::NONE;
use ij_bits::OutOfMemory;
use ijtag_core::Status;
use ijtag_work::{Accepted, Texts, accept, steps_again};
use merge_order::{BitSteps, bit_steps_are_of_the_network, next_step};
use net_graph::Net;
use pdl_meaning::Direct;
use std::alloc::Global;

/// Two values are stored at one place. The first is read after that, its last bit expected otherwise.
const STORE_AND_READ: &[u8] =
    b"iProcsForModule chip\niProc p {} {\n  iReset\n  iWrite mem.a 3\n  iWrite mem.d 0x5A\n  iApply\n  iWrite mem.d 0x11\n  iApply\n  iRunLoop 7\n  iRead mem.o 0x5B\n  iApply\n}\n";

const PRINTED: &[u8] =
    b"differs iread 1 line 10 index 0 expected 1 read 0\nregister net.R 000100010011\ninstrument mem q=5A m[3]=11 changes 2 runs 7 resets 1\nreads 8 differs 1\n";

const TEXTS: Texts<'static> = Texts {
    icl: MEMORY,
    device: DEVICE,
    tables: Some(MEMORY_TABLES),
    svf: None,
    top: "chip",
    pdl: Some(STORE_AND_READ),
    procedure: "p",
};

/// Does the bit steps that are left of a procedure.
fn do_steps(direct: &mut Direct<'_>, steps: &mut BitSteps<'_>) -> Result<(), OutOfMemory>
    requires { All (IsStep direct.old.net) steps.old.steps }
    ensures { length direct.new.state.insts ≡ length direct.old.state.insts }
{
    while let Some(step) = next_step(steps)? {
        direct.step(&step)?;
    }
    Ok(())
}

/// How many reads found another value than they expect.
fn differing(direct: &Direct<'_>) -> usize {
    let mut count = 0usize;
    for read in direct.reads() {
        if read.0.expect != read.1 {
            count = count.saturating_add(1);
        }
    }
    count
}

/// What is kept of the network's only instrument and of all reads, in the words of `direct`; nothing without
/// memory.
fn kept_text(alloc: Global, direct: &Direct<'_>) -> Option<String> {
    let [runner] = direct.runners() else {
        return None;
    };
    format!(in alloc;
        "instrument mem q={:02X} m[3]={:02X} changes {} runs {} resets {}\nreads {} differs {}\n",
        runner.machine.word(0),
        runner.machine.mem(3),
        runner.counts.changes,
        runner.counts.runs,
        runner.counts.resets,
        direct.reads().len(),
        differing(direct)
    )
    .ok()
}

/// The same after the procedure.
fn done_text(alloc: Global, it: &Accepted) -> Option<String>
    requires usable { IsUsable it.now }
    requires models { there it.now.models ≡ true }
    requires procedure { there it.now.procedure ≡ true }
{
    bit_steps_are_of_the_network();
    let net = &it.network.net;
    let mut steps = steps_again(alloc, &it.network, it.procedure()).ok()?;
    let mut direct = Direct::power_up(alloc, net, it.models().models()).ok()?;
    do_steps(&mut direct, &mut steps).ok()?;
    kept_text(alloc, &direct)
}

/// Words, memory, counts and the numbers of reads are those that `direct` prints.
#[test]
fn what_is_kept_is_what_direct_prints(rt: HostRuntime) {
    let files = [
        ("a.icl", MEMORY),
        ("a.pdl", STORE_AND_READ),
        ("a.dev", DEVICE),
        ("a.tab", MEMORY_TABLES),
    ];
    let ended = run(rt.alloc(), &DIRECT, &files, &NONE);
    assert!(rt; ended.is(Status::Differs, PRINTED, b""));
    let it = accept(rt.alloc(), &TEXTS).ok().expect(&rt, "accepted");
    let text = done_text(rt.alloc(), &it).expect(&rt, "done");
    assert!(rt; PRINTED.ends_with(text.as_bytes()), "{text}");
}
