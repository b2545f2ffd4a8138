//! A pass by workers, each in a thread of its own.

use crate::books::published;
use crate::meeting::Meeting;
use kb_draw::Crew;
use kb_io::{Gate, OpenGate};
use kb_machine::Event;
use kb_share::Waiting;
use kb_threads::{Passed, Threads};
use kb_word::Memory;
use std::alloc::Global;
use std::sync::Wait;
use std::test::Fail;
use std::thread;

/// As many overlaps are entered by a pass here: at least 16 are, and the last two of these are equally short.
const SHORTEST: u32 = 17;

/// Relations of two letters each: 15 of them, then two with longer sides, and one more with yet longer ones. Each line
/// overlaps itself alone, and is apart.
const RELATIONS: &str = "_RWS := rec(isRWS := true, \
    generatorOrder := [a,b,c,d,e,f,g,h,i,j,k,l,m,n,o,p,q,r,s,t,u,v,w,x,y,z,A,B,C,D,E,F,W,X,Y,Z], equations := [\
    [b*a*b,a*b*a],[d*c*d,c*d*c],[f*e*f,e*f*e],[h*g*h,g*h*g],[j*i*j,i*j*i],\
    [l*k*l,k*l*k],[n*m*n,m*n*m],[p*o*p,o*p*o],[r*q*r,q*r*q],[t*s*t,s*t*s],\
    [v*u*v,u*v*u],[x*w*x,w*x*w],[z*y*z,y*z*y],[B*A*B,A*B*A],[D*C*D,C*D*C],\
    [F*E*E*F,E*F*F*E],[Z*Y*Y*Z,Y*Z*Z*Y],[X*W*W*W*X,W*X*X*X*W]]);";

/// The events of a pass by these workers over the book of these relations.
fn events_of<G: Gate, T: thread::Threads + Wait + Sync>(
    rt: &T,
    alloc: Global,
    crew: Crew<'_, G>,
) -> Result<Vec<Event>, Memory> {
    let book = published(alloc, RELATIONS)?;
    let mut waiting = Waiting::new(alloc);
    match Threads::of(crew).pass(rt, alloc, book, &mut waiting)? {
        Passed::Confluent(_) => Ok(Vec::new(alloc)),
        Passed::Entered(after) => Ok(Vec::from_slice(alloc, after.journal())?),
    }
}

/// How many overlaps a worker entered, or with 0 all workers.
fn entries(events: &[Event], by: u8) -> u64 {
    let mut entries = 0u64;
    for event in events {
        if let Event::Entered { worker, .. } = event {
            if by == 0 || *worker == by {
                entries = entries.saturating_add(1);
            }
        }
    }
    entries
}

/// Whether the overlap of a line with itself at this place was entered.
fn is_entered(events: &[Event], line: u32, at: u16) -> bool {
    for event in events {
        if let Event::Entered {
            first,
            second,
            place,
            ..
        } = event
        {
            if *first == line && *second == line && *place == at {
                return true;
            }
        }
    }
    false
}

/// Whether the overlaps of all lines but that with the longest sides were entered, each once.
fn are_shortest(events: &[Event]) -> bool {
    for line in 1..SHORTEST + 1 {
        let place = if line < 16 { 2 } else { 3 };
        if !is_entered(events, line, place) {
            return false;
        }
    }
    entries(events, 0) == u64::from(SHORTEST)
}

/// Each of two workers has a row when they meet; and each has entered something when both come to enter again.
#[test]
fn workers_enter_the_shortest_side_by_side(rt: HostRuntime) -> Result<(), Fail> {
    let alloc = rt.alloc();
    let meeting = Meeting::new();
    let events = events_of(&rt, alloc, Crew::new(2, &meeting))?;
    assert!(rt; !meeting.was_missed());
    assert!(rt; are_shortest(&events));
    assert!(rt; entries(&events, 1) > 0);
    assert!(rt; entries(&events, 2) > 0);
    let events = events_of(&rt, alloc, Crew::new(8, &OpenGate))?;
    assert!(rt; are_shortest(&events));
    Ok(())
}
