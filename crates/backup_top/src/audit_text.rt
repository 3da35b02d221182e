ghost use Rattle.std.specs.Prelude.{◌≡◌, IfOk, string_bytes};
ghost use Rattle.ingest_core.specs.Auditing.{counts_of};
ghost use Rattle.sd_base.specs.Audits.{audit_text};

use ingest_core::Audited;
use sd_base::OutOfMemory;
use std::alloc::Global;

/// The text of `audit`: the number of live sessions, of all sessions that were taken in, of stored
/// chunks and of containers. It fails only if memory runs out.
pub fn text_of_audit(alloc: Global, audited: &Audited) -> Result<String, OutOfMemory>
    ensures { IfOk result (λ text. string_bytes text ≡ audit_text (counts_of audited.now)) }
{
    let Audited {
        live,
        ingested,
        chunks,
        containers,
    } = *audited;
    let mut text = String::new(alloc);
    write!(text, "ok {live} live {ingested} ingested ")?;
    writeln!(text, "{chunks} chunks {containers} containers")?;
    Ok(text)
}
