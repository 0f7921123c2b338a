ghost use Rattle.std.specs.Prelude.{◌≡◌, IfOk, string_bytes};
ghost use Rattle.opt_check.specs.Lines.{fault_line, cert_fault_place, cert_fault_name, cert_fault_line, check_fault_place, check_fault_name, check_fault_line};

use opt_cert::CertFault;
use opt_tree::CheckFault;
use std::alloc::{AllocError, Global};

/// The line that is printed where a certificate's text is refused with this fault.
pub fn line_of_cert_fault(alloc: Global, fault: CertFault) -> Result<String, AllocError>
    ensures { IfOk result (λ text. string_bytes text ≡ cert_fault_line fault) }
{
    let place = place_of_cert_fault(alloc, fault)?;
    let name = name_of_cert_fault(fault);
    format!(in alloc; "refused certificate.txt{place}: {name}\n")
}

/// The line of the text that a fault names, where it names one.
fn place_of_cert_fault(alloc: Global, fault: CertFault) -> Result<String, AllocError>
    ensures { IfOk result (λ text. string_bytes text ≡ cert_fault_place fault) }
{
    match fault {
        CertFault::BadLine(number) | CertFault::Range(number) | CertFault::Order(number) => {
            format!(in alloc; " line {number}")
        }
        CertFault::Truncated | CertFault::Trailing | CertFault::OutOfMemory => "".to_string(alloc),
    }
}

/// What a fault of the text is called.
fn name_of_cert_fault(fault: CertFault) -> &'static str
    ensures { result.now ≡ cert_fault_name fault }
{
    match fault {
        CertFault::BadLine(_) => "BadLine",
        CertFault::Range(_) => "Range",
        CertFault::Order(_) => "Order",
        CertFault::Truncated => "Truncated",
        CertFault::Trailing => "Trailing",
        CertFault::OutOfMemory => "OutOfMemory",
    }
}

/// The line that is printed where a certificate does not show its verdict, by this fault.
pub fn line_of_check_fault(alloc: Global, fault: CheckFault) -> Result<String, AllocError>
    ensures { IfOk result (λ text. string_bytes text ≡ check_fault_line fault) }
{
    let place = place_of_check_fault(alloc, fault)?;
    let name = name_of_check_fault(alloc, fault)?;
    format!(in alloc; "refused certificate.txt{place}: {name}\n")
}

/// The quantity, the row or the node that a fault names, where it names one.
fn place_of_check_fault(alloc: Global, fault: CheckFault) -> Result<String, AllocError>
    ensures { IfOk result (λ text. string_bytes text ≡ check_fault_place fault) }
{
    match fault {
        CheckFault::PlanRange { quantity } => format!(in alloc; " quantity {quantity}"),
        CheckFault::PlanBroken { row } => format!(in alloc; " row {row}"),
        CheckFault::CutRange { node } | CheckFault::LeafOpen { node, .. } => {
            format!(in alloc; " node {node}")
        }
        CheckFault::RowNumber { node, row } | CheckFault::Sign { node, row } => {
            format!(in alloc; " node {node} row {row}")
        }
        CheckFault::RootLine
        | CheckFault::WrongObjective { .. }
        | CheckFault::UnderLimit { .. }
        | CheckFault::NothingOpen
        | CheckFault::WrongBound { .. }
        | CheckFault::OutOfMemory => "".to_string(alloc),
    }
}

/// What a fault is called, with the number that it carries.
fn name_of_check_fault(alloc: Global, fault: CheckFault) -> Result<String, AllocError>
    ensures { IfOk result (λ text. string_bytes text ≡ check_fault_name fault) }
{
    match fault {
        CheckFault::RootLine => "RootLine".to_string(alloc),
        CheckFault::PlanRange { .. } => "PlanRange".to_string(alloc),
        CheckFault::PlanBroken { .. } => "PlanBroken".to_string(alloc),
        CheckFault::WrongObjective { value } => format!(in alloc; "WrongObjective {value}"),
        CheckFault::CutRange { .. } => "CutRange".to_string(alloc),
        CheckFault::RowNumber { .. } => "RowNumber".to_string(alloc),
        CheckFault::Sign { .. } => "Sign".to_string(alloc),
        CheckFault::LeafOpen { bound, .. } => format!(in alloc; "LeafOpen {bound}"),
        CheckFault::UnderLimit { nodes } => format!(in alloc; "UnderLimit {nodes}"),
        CheckFault::NothingOpen => "NothingOpen".to_string(alloc),
        CheckFault::WrongBound { value } => format!(in alloc; "WrongBound {value}"),
        CheckFault::OutOfMemory => "OutOfMemory".to_string(alloc),
    }
}
