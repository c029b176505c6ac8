//! The texts of a planning task and of what is judged for it.

ghost use Rattle.std.specs.Prelude.{◌≡◌, ◌++◌, List, Some, IfOk, IfErr, OnOk};
ghost use Rattle.optplan_device.specs.Events.{Event};
ghost use Rattle.optplan_replies.specs.Runs.{IsDeviceFault, IsUnput};
ghost use Rattle.optplan_verdicts.specs.Validation.{reads};

use optplan_device::Device;
use optplan_replies::{Fault, FileWord, read_file};
use std::alloc::Global;

/// The texts of a domain, of a problem, and of a plan or a certificate.
#[derive(Drop)]
pub struct Texts {
    pub domain: Vec<u8>,
    pub problem: Vec<u8>,
    pub judged: Vec<u8>,
}

/// Returns the texts of the three files, read in this order, the third of which is a file of kind `third`. Fails as
/// `read_file` does.
pub(crate) fn read_texts<D: Device>(
    alloc: Global,
    device: &mut D,
    domain: &str,
    problem: &str,
    judged: &str,
    third: FileWord,
) -> Result<Texts, Fault>
    ensures told { (h : List Event) → D.history device.old ≡ Some h →
        IfOk result (λ t. D.history device.new ≡ Some (h ++ reads domain.now t.domain.items problem.now t.problem.items judged.now t.judged.items)) }
    ensures same { OnOk result (D.failure_count device.new ≡ D.failure_count device.old) }
    ensures failed { IfErr result (λ e. IsDeviceFault e (D.failure_count device.old) (D.failure_count device.new)) }
    ensures unput { IsUnput (D.history device.old) (D.history device.new) }
{
    let domain = read_file(alloc, device, domain, FileWord::Domain)?;
    let problem = read_file(alloc, device, problem, FileWord::Problem)?;
    let judged = read_file(alloc, device, judged, third)?;
    Ok(Texts {
        domain,
        problem,
        judged,
    })
}
