use crate::{
    BatchStatus, Line, ListError, PlanError, Told, answer_of, batch_code, plan_of_words,
    programs_of, with_code,
};
use ds_base::Bytes;
use link_status::Status;
use std::alloc::Global;
use std::process::Abort;

/// The lines and the names of a list's programs, joined as `LINE NAME` with a bar between them.
fn named(rt: &impl Abort, alloc: Global, programs: &[Line]) -> String {
    let mut text = String::new(alloc);
    for line in programs {
        let one = format!(in alloc; "{} {}|", line.number, line.exe).expect(rt, "memory");
        text.push_str(one.as_str()).expect(rt, "memory");
    }
    text
}

/// What a list gives: its programs, or the number of the first line that is refused.
fn given(rt: &impl Abort, alloc: Global, list: &[u8]) -> String {
    assert!(rt; list.len() < 64);
    match programs_of(alloc, list) {
        Ok(programs) => named(rt, alloc, programs.as_slice()),
        Err(ListError::BadLine { line }) => line.to_string(alloc).expect(rt, "memory"),
        Err(ListError::NoMemory) => String::new(alloc),
    }
}

fn gives(rt: &impl Abort, alloc: Global, list: &[u8], want: &str) {
    let seen = given(rt, alloc, list);
    assert_eq!(rt; seen.as_str(), want);
}

#[test]
fn lines_that_are_not_empty_name_programs(rt: HostRuntime) {
    let alloc = rt.alloc();
    gives(&rt, alloc, b"a.out\n\nnone", "1 a.out|3 none|");
    gives(&rt, alloc, b"a b/c\r\n", "1 a b/c\r|");
    gives(&rt, alloc, b"\n\n", "");
}

#[test]
fn the_first_line_that_names_no_program_is_told(rt: HostRuntime) {
    let alloc = rt.alloc();
    gives(&rt, alloc, b"a.out\ndir/\n-x", "2");
    gives(&rt, alloc, b"\na/..\n", "2");
    gives(&rt, alloc, b"a\xff\n-x\n", "1");
    gives(&rt, alloc, b"a\n\n-x", "3");
}

/// What words give: the list, how many programs, and the two options; or nothing.
fn planned(rt: &impl Abort, alloc: Global, words: &[&str]) -> String {
    let mut owned = Vec::new(alloc);
    for word in words {
        owned
            .push(String::from_str(alloc, word).expect(rt, "memory"))
            .expect(rt, "memory");
    }
    match plan_of_words(alloc, owned.as_slice()) {
        Ok(plan) => format!(in alloc;
            "{} {} {} {}",
            plan.list, plan.workers, plan.odr, plan.keep_going
        )
        .expect(rt, "memory"),
        Err(PlanError::Usage) => String::new(alloc),
        Err(PlanError::NoMemory) => String::from_str(alloc, "no memory").expect(rt, "memory"),
    }
}

fn plans(rt: &impl Abort, alloc: Global, words: &[&str], want: &str) {
    let seen = planned(rt, alloc, words);
    assert_eq!(rt; seen.as_str(), want);
}

#[test]
fn words_give_a_plan(rt: HostRuntime) {
    let alloc = rt.alloc();
    plans(&rt, alloc, &["L"], "L 2 true false");
    plans(
        &rt,
        alloc,
        &["-j", "8", "--no-odr", "--keep-going", "L"],
        "L 8 false true",
    );
    plans(&rt, alloc, &["-j", "9", "L"], "");
    plans(&rt, alloc, &["-j", "0", "L"], "");
    plans(&rt, alloc, &[], "");
}

#[test]
fn a_programs_message_ends_with_its_code(rt: HostRuntime) {
    let alloc = rt.alloc();
    let own = Bytes::from_slice(alloc, b"own\n").expect(&rt, "memory");
    let message = with_code(alloc, own, "none", &Status::Missing { file: 0 }).expect(&rt, "memory");
    assert!(&rt; message.as_slice() == b"own\nbatch: none 2\n".as_slice());
}

#[test]
fn the_first_refused_program_is_the_answer(rt: HostRuntime) {
    let told = [
        Told {
            line: 1,
            status: Status::Done,
        },
        Told {
            line: 3,
            status: Status::NoMemory,
        },
        Told {
            line: 4,
            status: Status::Usage,
        },
    ];
    assert!(&rt; answer_of(&told) == BatchStatus::Programs { first: 4 });
    assert!(&rt; answer_of(&told[..2]) == BatchStatus::NoMemory);
    assert!(&rt; answer_of(&told[..1]) == BatchStatus::Done);
    assert!(&rt; batch_code(&BatchStatus::Programs { first: 4 }) == 9);
}
