//! Tests of `generation_engine` (universes filled from planes beside the planes' own walks, universes
//! run beside boards of cells, and room), of `tile_cells` (soups beside boards of cells) and of `export`, by tiles and by universes.
#![tactic(auto)]

#[cfg(test)]
mod by_tiles;
#[cfg(test)]
mod calls;
#[cfg(test)]
mod exports;
#[cfg(test)]
mod planes;
#[cfg(test)]
mod rooms;
#[cfg(test)]
mod runs;
#[cfg(test)]
mod soups;
#[cfg(test)]
mod tiles;
