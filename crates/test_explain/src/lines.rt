//! Faults of finite-domain tasks and of certificates.

use cert_text::CertFault;
use optplan_explain::{Source, Sources, explanation};
use optplan_replies::Fault;
use sasfile::SasFault;
use std::alloc::Global;
use std::process::Abort;

/// Returns the sources of a finite-domain task and a certificate.
fn sources<'a>(sas: &'a [u8], cert: &'a [u8]) -> Sources<'a> {
    Sources {
        domain: None,
        problem: None,
        plan: None,
        sas: Some(Source {
            path: "./o.sas",
            text: sas,
        }),
        cert: Some(Source {
            path: "c",
            text: cert,
        }),
    }
}

fn is_told(rt: &impl Abort, alloc: Global, fault: &Fault, sources: &Sources<'_>, want: &str) {
    let told = explanation(alloc, fault, sources);
    let told = told.expect(rt, "memory").expect(rt, "an explanation");
    assert_eq!(rt; told.as_str(), want);
}

/// Faults of this task's text.
const SAS: &[u8] = b"begin_version\n4\r\nend_version\n";

const SAS_FAULTS: &[(SasFault, &str)] = &[
    (
        SasFault::Version(2),
        "./o.sas:2: this is not version 3\n4 \n",
    ),
    (
        SasFault::Expected(1),
        "./o.sas:1: this line does not have the required form\nbegin_version\n",
    ),
    (
        SasFault::Range(3),
        "./o.sas:3: a number is out of range, or names a variable a second time\nend_version\n",
    ),
    (
        SasFault::Axioms(3),
        "./o.sas:3: axioms are not supported\nend_version\n",
    ),
    (
        SasFault::ConditionalEffect(1),
        "./o.sas:1: conditional effects are not supported\nbegin_version\n",
    ),
    (
        SasFault::Truncated,
        "./o.sas:4: the text ends before its last line\n\n",
    ),
    (
        SasFault::Trailing(3),
        "./o.sas:3: this line follows the end of the task\nend_version\n",
    ),
    (
        SasFault::Expected(9),
        "./o.sas:9: this line does not have the required form\n\n",
    ),
];

#[test]
fn tasks_are_explained(rt: HostRuntime) {
    for (fault, want) in SAS_FAULTS {
        let sources = sources(SAS, b"no");
        is_told(&rt, rt.alloc(), &Fault::Sas(*fault), &sources, want);
    }
}

/// Faults of this certificate's text.
const CERT: &[u8] = b"optplan-cert 1\nkind\tpddl\nbound";

const CERT_FAULTS: &[(CertFault, &str)] = &[
    (
        CertFault::Header,
        "c:1: this is not the first line of a certificate of a known version\noptplan-cert 1\n",
    ),
    (
        CertFault::Expected(2),
        "c:2: another keyword, separator or number of words is required\nkind pddl\n",
    ),
    (
        CertFault::Number(3),
        "c:3: a word is no number, or one above its limit\nbound\n",
    ),
    (
        CertFault::Truncated,
        "c:3: a line is missing, or has no line feed\nbound\n",
    ),
    (
        CertFault::Trailing(4),
        "c:4: this follows the last line\n\n",
    ),
    (
        CertFault::Order(2),
        "c:2: numbers have to increase and do not\nkind pddl\n",
    ),
    (
        CertFault::Classes(2),
        "c:2: the classes are not numbered in the order of their first occurrences\nkind pddl\n",
    ),
];

#[test]
fn certificates_are_explained(rt: HostRuntime) {
    for (fault, want) in CERT_FAULTS {
        let sources = sources(b"no", CERT);
        is_told(&rt, rt.alloc(), &Fault::Cert(*fault), &sources, want);
    }
}

#[test]
fn empty_texts_are_explained(rt: HostRuntime) {
    let sources = sources(b"", b"");
    is_told(
        &rt,
        rt.alloc(),
        &Fault::Sas(SasFault::Truncated),
        &sources,
        "./o.sas:1: the text ends before its last line\n\n",
    );
    is_told(
        &rt,
        rt.alloc(),
        &Fault::Cert(CertFault::Header),
        &sources,
        "c:1: this is not the first line of a certificate of a known version\n\n",
    );
}

/// Lines of 161 and of 160 bytes.
const LONG: &[u8] =
    b"0123456789012345678901234567890123456789012345678901234567890123456789012345678901234567890123456789012345678901234567890123456789012345678901234567890123456789x\n9876543210987654321098765432109876543210987654321098765432109876543210987654321098765432109876543210987654321098765432109876543210987654321098765432109876543210\n";

#[test]
fn long_lines_are_cut(rt: HostRuntime) {
    let sources = sources(LONG, b"");
    is_told(
        &rt,
        rt.alloc(),
        &Fault::Sas(SasFault::Expected(1)),
        &sources,
        "./o.sas:1: this line does not have the required form\n0123456789012345678901234567890123456789012345678901234567890123456789012345678901234567890123456789012345678901234567890123456789012345678901234567890123456789\n",
    );
    is_told(
        &rt,
        rt.alloc(),
        &Fault::Sas(SasFault::Expected(2)),
        &sources,
        "./o.sas:2: this line does not have the required form\n9876543210987654321098765432109876543210987654321098765432109876543210987654321098765432109876543210987654321098765432109876543210987654321098765432109876543210\n",
    );
}
