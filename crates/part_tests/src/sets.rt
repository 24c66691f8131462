//! By which numbers the client reaches the server.
ghost use Rattle.std.specs.Prelude.{◌≡◌, is_some};
ghost use Rattle.api_types.specs.RowsWith.{port_with};

use crate::reach_rows::{CLIENT, Inward, NET, RANGE_OF_ANY, SERVER, SHELL_AND_WEB, rows_with};
use api_check::first_broken;
use api_types::{Id, Rows};
use net_settings::default_settings;
use reach_sets::{ReachSet, Span, Spans, reach};
use std::alloc::Global;
use std::test::Fail;
use test_rows::{four, id};

/// Spans by their first and last numbers.
type Numbers = &'static [(u32, u32)];

/// Rules of the server, and what the client reaches of it.
struct Case {
    name: &'static str,
    rules: &'static [Inward],
    tcp: Numbers,
    udp: Numbers,
    echo: bool,
    other: Numbers,
}

const CASES: [Case; 5] = [
    Case {
        name: "ports 22 and 80 to 90",
        rules: SHELL_AND_WEB,
        tcp: &[(22, 22), (80, 90)],
        udp: &[],
        echo: false,
        other: &[],
    },
    Case {
        name: "the first and the last numbers",
        rules: &[
            Inward {
                protocol: Some(17),
                low: Some(0),
                high: Some(0),
            },
            Inward {
                protocol: Some(17),
                low: Some(65535),
                high: Some(65535),
            },
            Inward {
                protocol: Some(0),
                low: None,
                high: None,
            },
            Inward {
                protocol: Some(255),
                low: None,
                high: None,
            },
        ],
        tcp: &[],
        udp: &[(0, 0), (65535, 65535)],
        echo: false,
        other: &[(0, 0), (255, 255)],
    },
    Case {
        name: "ranges with one end, which no call makes",
        rules: &[
            Inward {
                protocol: Some(6),
                low: Some(8080),
                high: None,
            },
            Inward {
                protocol: Some(17),
                low: None,
                high: Some(1023),
            },
        ],
        tcp: &[(8080, 65535)],
        udp: &[(0, 1023)],
        echo: false,
        other: &[],
    },
    Case {
        name: "a range for any protocol, which ICMPv6 doesn't meet",
        rules: RANGE_OF_ANY,
        tcp: &[(0, 20)],
        udp: &[(0, 20)],
        echo: false,
        other: &[(0, 0), (2, 5), (7, 16), (18, 57), (59, 255)],
    },
    Case {
        name: "any protocol, those of other kinds left out",
        rules: &[Inward {
            protocol: None,
            low: None,
            high: None,
        }],
        tcp: &[(0, 65535)],
        udp: &[(0, 65535)],
        echo: true,
        other: &[(0, 0), (2, 5), (7, 16), (18, 255)],
    },
];

fn is_span((span, (first, last)): (&Span, &(u32, u32))) -> bool {
    span.first == *first && span.last == *last
}

fn are_spans(spans: &Spans, numbers: Numbers) -> bool {
    spans.len() == numbers.len() && spans.iter().zip(numbers).all(is_span)
}

fn is_set(set: &ReachSet, case: &Case) -> bool {
    are_spans(&set.tcp, case.tcp)
        && are_spans(&set.udp, case.udp)
        && set.echo == case.echo
        && are_spans(&set.other, case.other)
}

fn is_port(rows: &Rows, id: Id) -> bool
    ensures { result ≡ is_some (port_with rows.now id) }
{
    let ports = rows.ports();
    let _own_ids = ports.rows(); // for the proof: no two ports have one id
    match ports.get(id) {
        Some(_) => true,
        None => false,
    }
}

fn reached(alloc: Global, rows: &Rows) -> Result<ReachSet, Fail> {
    let settings = default_settings(alloc)?;
    if let Some(_) = first_broken(rows, &settings) {
        return Err(Fail::new("rows are inconsistent"));
    }
    let client = id(CLIENT);
    let server = id(SERVER);
    if !is_port(rows, client) {
        return Err(Fail::new("there is no client"));
    }
    if !is_port(rows, server) {
        return Err(Fail::new("there is no server"));
    }
    let source = four(NET + u32::from(CLIENT));
    let destination = four(NET + u32::from(SERVER));
    Ok(reach(alloc, rows, client, source, server, destination)?)
}

fn reaches_as_said(alloc: Global, case: &Case) -> Result<bool, Fail> {
    let rows = rows_with(alloc, case.rules)?;
    let set = reached(alloc, &rows)?;
    Ok(is_set(&set, case))
}

#[test]
fn sets_are_those_of_the_rules(rt: HostRuntime) -> Result<(), Fail> {
    for case in &CASES {
        assert!(rt; reaches_as_said(rt.alloc(), case)?, "{}", case.name);
    }
    Ok(())
}
