ghost use Rattle.std.specs.Prelude.{◌≡◌};
ghost use Rattle.script.specs.Names.{command_named};
ghost use Rattle.script.specs.Stops.{understood};

use crate::stop::Stop;
use std::str::FromStr;

// What a grid can be asked.
#[derive(Clone, Copy)]
pub(crate) enum Question {
    Dimensionality,
    ArrayShape,
    GridShape,
    ChunkShape,
    ChunkOrigin,
    ChunkIndices,
    ChunkElementIndices,
    Subset,
    Inbounds,
    ChunksIn,
    Fits,
}

// What a line can ask for.
#[derive(Clone, Copy)]
pub(crate) enum Command {
    Lay,
    Compress,
    Grid,
    Ask(Question),
}

impl FromStr for Command {
    type Err = Stop;

    ghost from_str_gives = { λ name result. result ≡ understood (command_named name) };

    fn from_str(name: &str) -> Result<Command, Stop> {
        let command = match name {
            "lay" => Command::Lay,
            "compress" => Command::Compress,
            "grid" => Command::Grid,
            "dimensionality" => Command::Ask(Question::Dimensionality),
            "array_shape" => Command::Ask(Question::ArrayShape),
            "grid_shape" => Command::Ask(Question::GridShape),
            "chunk_shape" => Command::Ask(Question::ChunkShape),
            "chunk_origin" => Command::Ask(Question::ChunkOrigin),
            "subset" => Command::Ask(Question::Subset),
            "chunk_indices" => Command::Ask(Question::ChunkIndices),
            "chunk_element_indices" => Command::Ask(Question::ChunkElementIndices),
            "inbounds" => Command::Ask(Question::Inbounds),
            "chunks_in" => Command::Ask(Question::ChunksIn),
            "fits" => Command::Ask(Question::Fits),
            _ => return Err(Stop::NotUnderstood),
        };
        Ok(command)
    }
}
