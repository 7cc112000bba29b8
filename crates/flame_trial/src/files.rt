//! The files of the meadow that do not depend on a seed.

ghost use Rattle.std.specs.Prelude.{◌≡◌, IfOk};
ghost use Rattle.flame_trial.specs.MeadowFiles.{model_text, source_text};

use flame_rows::{Blob, NoMemory};
use std::alloc::Global;

/// The model file.
const MODEL: &str = concat!(
    r#"{"xmodel":{"environment":{"#,
    r#""constants":[{"type":"int","name":"cells"},{"type":"int","name":"grass"}],"#,
    r#""functionFiles":["meadow.c"]},"#,
    r#""messages":["#,
    r#"{"name":"rabbit_at","variables":[{"type":"int","name":"cell"}]},"#,
    r#"{"name":"fox_at","variables":[{"type":"int","name":"cell"}]}],"#,
    r#""agents":["#,
    r#"{"name":"Rabbit","#,
    r#""memory":[{"type":"int","name":"cell"},{"type":"int","name":"energy"}],"functions":["#,
    r#"{"name":"graze","currentState":"start","nextState":"grazed","#,
    r#""outputs":[{"messageName":"rabbit_at"}]},"#,
    r#"{"name":"flee","currentState":"grazed","nextState":"end","#,
    r#""inputs":[{"messageName":"fox_at","#,
    r#""filter":{"lhs":{"value":"m.cell"},"op":"EQ","rhs":{"value":"a.cell"}}}]}]},"#,
    r#"{"name":"Fox","#,
    r#""memory":[{"type":"int","name":"cell"},{"type":"int","name":"energy"}],"functions":["#,
    r#"{"name":"prowl","currentState":"start","nextState":"prowled","#,
    r#""outputs":[{"messageName":"fox_at"}]},"#,
    r#"{"name":"hunt","currentState":"prowled","nextState":"end","#,
    r#""inputs":[{"messageName":"rabbit_at","#,
    r#""filter":{"lhs":{"value":"m.cell"},"op":"EQ","rhs":{"value":"a.cell"}}}]}]}]}}"#,
    "\n",
);

/// The function file.
const SOURCE: &str = concat!(
    "#include \"header.h\"\n",
    "int graze() {\n",
    "    ENERGY += GRASS;\n",
    "    add_rabbit_at_message(CELL);\n",
    "    return 0;\n",
    "}\n",
    "int flee() {\n",
    "    int foxes = 0;\n",
    "    START_FOX_AT_MESSAGE_LOOP\n",
    "        foxes++;\n",
    "    FINISH_FOX_AT_MESSAGE_LOOP\n",
    "    if (foxes > 0 && ENERGY % 2 == 0) return 1;\n",
    "    if (ENERGY >= 20) {\n",
    "        ENERGY = ENERGY / 2;\n",
    "        add_Rabbit_agent((CELL + 1) % CELLS, ENERGY);\n",
    "    }\n",
    "    return 0;\n",
    "}\n",
    "int prowl() {\n",
    "    ENERGY -= 1;\n",
    "    CELL = (CELL * 7 + 1) % CELLS;\n",
    "    add_fox_at_message(CELL);\n",
    "    return 0;\n",
    "}\n",
    "int hunt() {\n",
    "    int eaten = 0;\n",
    "    START_RABBIT_AT_MESSAGE_LOOP\n",
    "        if (eaten < 3) eaten++;\n",
    "    FINISH_RABBIT_AT_MESSAGE_LOOP\n",
    "    ENERGY += eaten;\n",
    "    if (ENERGY <= 0) return 1;\n",
    "    if (ENERGY >= 24) {\n",
    "        ENERGY = ENERGY / 2;\n",
    "        add_Fox_agent(CELL, ENERGY);\n",
    "    }\n",
    "    return 0;\n",
    "}\n",
);

/// The model file of the meadow: rabbits that graze and flee, and foxes that prowl and hunt. It names `meadow.c` as its
/// function file. The error is want of memory.
pub fn meadow_model(alloc: Global) -> Result<Blob, NoMemory>
    ensures { IfOk result (λ bytes. bytes ≡ model_text) }
{
    Ok(Blob::of(Vec::from_slice(alloc, MODEL.as_bytes())?))
}

/// The function file of the meadow. The error is want of memory.
pub fn meadow_source(alloc: Global) -> Result<Blob, NoMemory>
    ensures { IfOk result (λ bytes. bytes ≡ source_text) }
{
    Ok(Blob::of(Vec::from_slice(alloc, SOURCE.as_bytes())?))
}
