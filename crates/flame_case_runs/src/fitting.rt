//! Whether worlds fit models.

ghost use Rattle.std.specs.Prelude.{◌≡◌, IfOk, IsTrue, length};
ghost use Rattle.flame_spec.specs.Columns.{width};
ghost use Rattle.std.specs.List.{AllZip};
ghost use Rattle.flame_world.specs.WorldFits.{AreWide, FitsModel, FitTypes};

use flame_lookup::width;
use flame_rows::{Bag, NoMemory, Row};
use flame_spec::{AgentType, Model};
use flame_world::World;

/// Whether each of these rows has this width.
fn are_wide(rows: &[Row], wide: u32) -> bool
    ensures { IsTrue result → AreWide wide rows.now }
{
    for row in rows {
        if row.values().len() != wide as usize {
            return false;
        }
    }
    true
}

/// Whether the agents of a type are as wide as it declares.
fn type_fits(agent: &AgentType, agents: &Bag) -> Result<bool, NoMemory>
    ensures { IfOk result (λ fits. IsTrue fits → AreWide (width agent.now.memory) agents.now) }
{
    let wide = width(agent.memory.items())?;
    Ok(are_wide(agents.rows(), wide))
}

/// Whether there are agents for each of these types, as wide as it declares.
fn types_fit(types: &[AgentType], bags: &[Bag]) -> Result<bool, NoMemory>
    ensures { IfOk result (λ fits. IsTrue fits
        → AllZip (λ agent agents. AreWide (width agent.memory) agents) types.now bags.now) }
{
    if types.len() != bags.len() {
        return Ok(false);
    }
    for i in 0..types.len() {
        if !type_fits(&types[i], &bags[i])? {
            return Ok(false);
        }
    }
    Ok(true)
}

/// Whether the world has a value for each constant of the model, and for each agent type agents as wide as it declares.
pub fn fits(model: &Model, world: &World) -> Result<bool, NoMemory>
    ensures { IfOk result (λ fits. IsTrue fits → FitsModel model.now world.now) }
{
    if world.constants.values().len() != model.constants.len() {
        return Ok(false);
    }
    types_fit(model.agents.items(), world.agents.items())
}
