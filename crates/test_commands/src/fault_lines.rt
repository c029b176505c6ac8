//! The lines of the faults of finite-domain tasks, certificates and files, without the program's name and the line
//! feed.

use cert_text::CertFault;
use fdr::TaskLimit;
use optplan_replies::{Fault, FileWord};
use sasfile::SasFault;
use std::test::Fail;

const SAS_ROWS: &[(SasFault, &str)] = &[
    (SasFault::OutOfMemory, "out of memory"),
    (SasFault::Limit(TaskLimit::Variables), "F18 Limit variables"),
    (SasFault::Limit(TaskLimit::Values), "F18 Limit values"),
    (SasFault::Limit(TaskLimit::Operators), "F18 Limit operators"),
    (SasFault::Version(2), "F40 Version sas 2"),
    (SasFault::Expected(1), "F41 Expected sas 1"),
    (SasFault::Range(12), "F42 Range sas 12"),
    (SasFault::Axioms(45), "F43 Axioms sas 45"),
    (
        SasFault::ConditionalEffect(35),
        "F44 ConditionalEffect sas 35",
    ),
    (SasFault::Truncated, "F45 Truncated sas"),
    (SasFault::Trailing(46), "F46 Trailing sas 46"),
];

#[test]
fn faults_of_finite_domain_tasks(rt: HostRuntime) -> Result<(), Fail> {
    for (fault, line) in SAS_ROWS {
        let fault = Fault::from(*fault);
        let given = format!(in rt.alloc(); "{fault}")?;
        assert_eq!(rt; given.as_str(), *line);
    }
    Ok(())
}

const CERT_ROWS: &[(CertFault, &str)] = &[
    (CertFault::OutOfMemory, "out of memory"),
    (CertFault::Header, "F50 Header cert"),
    (CertFault::Expected(2), "F51 Expected cert 2"),
    (CertFault::Number(3), "F52 Number cert 3"),
    (CertFault::Truncated, "F53 Truncated cert"),
    (CertFault::Trailing(9), "F54 Trailing cert 9"),
    (CertFault::Order(8), "F55 Order cert 8"),
    (CertFault::Classes(16), "F57 Classes cert 16"),
    (CertFault::TooLong, "F56 TooLong cert"),
];

#[test]
fn faults_of_certificates(rt: HostRuntime) -> Result<(), Fail> {
    for (fault, line) in CERT_ROWS {
        let fault = Fault::from(*fault);
        let given = format!(in rt.alloc(); "{fault}")?;
        assert_eq!(rt; given.as_str(), *line);
    }
    Ok(())
}

const FILE_ROWS: &[(FileWord, &str, &str)] = &[
    (
        FileWord::Domain,
        "F70 CannotRead domain",
        "F71 CannotWrite domain",
    ),
    (
        FileWord::Problem,
        "F70 CannotRead problem",
        "F71 CannotWrite problem",
    ),
    (
        FileWord::Plan,
        "F70 CannotRead plan",
        "F71 CannotWrite plan",
    ),
    (FileWord::Sas, "F70 CannotRead sas", "F71 CannotWrite sas"),
    (
        FileWord::Cert,
        "F70 CannotRead cert",
        "F71 CannotWrite cert",
    ),
    (
        FileWord::Output,
        "F70 CannotRead output",
        "F71 CannotWrite output",
    ),
];

#[test]
fn files_by_their_words(rt: HostRuntime) -> Result<(), Fail> {
    for (file, unread, unwritten) in FILE_ROWS {
        let fault = Fault::CannotRead(*file);
        let given = format!(in rt.alloc(); "{fault}")?;
        assert_eq!(rt; given.as_str(), *unread);
        let fault = Fault::CannotWrite(*file);
        let given = format!(in rt.alloc(); "{fault}")?;
        assert_eq!(rt; given.as_str(), *unwritten);
    }
    Ok(())
}

#[test]
fn faults_without_a_place(rt: HostRuntime) -> Result<(), Fail> {
    let rows = [
        (Fault::OutOfMemory, "out of memory"),
        (Fault::GroundLimit, "F20 GroundLimit"),
        (
            Fault::TaskTooLarge(TaskLimit::Operators),
            "F18 Limit operators",
        ),
        (Fault::TotalTooLarge, "F60 TotalTooLarge"),
    ];
    for (fault, line) in &rows {
        let given = format!(in rt.alloc(); "{fault}")?;
        assert_eq!(rt; given.as_str(), *line);
    }
    Ok(())
}
