//! The policy of the workload.
#![tactic(auto, unfolding(crate::specs::Generated::policy_text))]

ghost use Rattle.std.specs.Prelude.{◌≡◌, IfOk};
ghost use Rattle.lio_host_main.specs.Generated.{policy_text};

use crate::workload::patterns::append_listed;
use lio_clauses::NoMemory;
use lio_values::Text;
use std::alloc::Global;

/// The policy's text: eight principals with a channel each, and a count of inputs with a task each.
pub(crate) fn make_policy(alloc: Global, count: u32) -> Result<Text, NoMemory>
    ensures { IfOk result (λ policy. policy ≡ policy_text count) }
{
    let mut out = Vec::new(alloc);
    out.extend_from_slice(b"{\"version\":1,\"longest\":4096,\"principals\":[")?;
    append_listed(&mut out, b"\"p#\"", 8)?;
    out.extend_from_slice(b"],\"channels\":[")?;
    append_listed(
        &mut out,
        b"{\"name\":\"out#\",\"label\":\"p@ %% True\",\"file\":\"out#.txt\"}",
        8,
    )?;
    out.extend_from_slice(b"],\"inputs\":[")?;
    append_listed(
        &mut out,
        b"{\"name\":\"in#\",\"label\":\"p@ %% True\",\"file\":\"in#.txt\"}",
        count,
    )?;
    out.extend_from_slice(b"],\"tasks\":[")?;
    append_listed(
        &mut out,
        b"{\"name\":\"t#\",\"proc\":\"main\",\"label\":\"True %% True\",\"clearance\":\"p@ %% True\",\"turns\":311,\"cells\":1,\"args\":[{\"input\":\"in#\"},{\"channel\":\"out@\"},{\"label\":\"p@ %% True\"}]}",
        count,
    )?;
    out.extend_from_slice(b"]}")?;
    Text::of_vec(alloc, out)
}
