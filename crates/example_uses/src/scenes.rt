//! Uses of `irig_scene`.

ghost use Rattle.std.specs.Prelude.{◌≡◌, false, IfOk, IsTrue, Some, length};
ghost use Rattle.report_run.specs.Lines.{lines};
ghost use Rattle.irig_plant.specs.Premises.{IsKept};
ghost use Rattle.irig_scene.specs.Scene.{Scene, meaning_of, output};

use irig_device::Watched;
use irig_plant::Audit;
use irig_scene::{SceneFault, run_scene};
use std::alloc::Global;

/// The log of a scenario, silent edges left out.
pub fn log_text(alloc: Global, scenario: &[u8]) -> Result<Vec<u8>, SceneFault>
    ensures { IfOk result (λ log. log.items ≡ output scenario.now false) }
{
    let mut input = Watched::new(scenario);
    let mut log = Watched::new(Vec::new(alloc));
    run_scene(alloc, &mut input, &mut log, false)?;
    Ok(log.into_inner())
}

/// How many lines a scenario has, if none is refused.
pub fn line_count(alloc: Global, scenario: &[u8]) -> Result<u64, SceneFault>
    ensures { IfOk result (λ count. count ≡ length (lines scenario.now)) }
{
    let mut input = Watched::new(scenario);
    let mut log = Watched::new(Vec::new(alloc));
    Ok(run_scene(alloc, &mut input, &mut log, false)?.lines)
}

/// Whether a scenario runs to its end and the premises of the headline held in it.
pub fn is_trusted(alloc: Global, scenario: &[u8]) -> Result<bool, SceneFault>
    ensures { IfOk result (λ is_trusted. IsTrue is_trusted
        → (scene : Scene) × ((meaning_of scenario.now).scene ≡ Some scene)
        × IsKept scene.plan.setup scene.events) }
{
    let mut input = Watched::new(scenario);
    let mut log = Watched::new(Vec::new(alloc));
    let outcome = run_scene(alloc, &mut input, &mut log, false)?;
    match outcome.audit {
        Audit::Kept => Ok(true),
        Audit::Broken { .. } | Audit::FalseTable { .. } => Ok(false),
    }
}
