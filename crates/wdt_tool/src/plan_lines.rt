//! The lines of a plan.
ghost use Rattle.std.specs.Prelude.{◌≡◌, ◌<◌, ◌^◌, ◌++◌, codes, length, IfOk, OnOk};
ghost use Rattle.std.specs.List.{flat_map};
ghost use Rattle.std.specs.Fmt.{decimal};
ghost use Rattle.wdt_tool.specs.PlanLines.{block_line, bytes_of, path_at, plan_text, AreOfTree};

use crate::report::push_printed;
use std::alloc::{AllocError, Global};
use wdt_tree::Manifest;
use wdt_units::Block;

/// The lines of a plan of a tree.
pub fn plan_text(
    alloc: Global,
    manifest: &Manifest,
    blocks: &[Block],
) -> Result<Vec<u8>, AllocError>
    requires few { length blocks.now < 2 ^ 32 }
    requires files { AreOfTree manifest.now blocks.now }
    ensures { IfOk result (λ text. text.items ≡ plan_text manifest.now blocks.now) }
{
    let mut text = Vec::new(alloc);
    let bytes = push_blocks(alloc, &mut text, manifest, blocks)?;
    push_sums(alloc, &mut text, blocks.len() as u64, bytes)?;
    Ok(text)
}

// Appends the line of each block, and answers how many bytes the blocks have together.
fn push_blocks(
    alloc: Global,
    text: &mut Vec<u8>,
    manifest: &Manifest,
    blocks: &[Block],
) -> Result<u64, AllocError>
    requires few { length blocks.now < 2 ^ 32 }
    requires files { AreOfTree manifest.now blocks.now }
    ensures lines { OnOk result (text.new.items ≡ text.old.items ++ flat_map (block_line manifest.now) blocks.now) }
    ensures bytes { IfOk result (λ bytes. bytes ≡ bytes_of blocks.now) }
{
    let mut bytes = 0;
    for block in blocks {
        push_block(alloc, text, manifest, block)?;
        bytes += block.length as u64;
    }
    Ok(bytes)
}

fn push_block(
    alloc: Global,
    text: &mut Vec<u8>,
    manifest: &Manifest,
    block: &Block,
) -> Result<(), AllocError>
    requires { block.now.file < length manifest.now }
    ensures { OnOk result (text.new.items ≡ text.old.items ++ block_line manifest.now block.now) }
{
    let Block {
        file,
        offset,
        length,
    } = *block;
    let front = format!(in alloc; "{offset} {length} ")?;
    text.extend_from_slice(front.as_bytes())?;
    push_printed(text, path_at(manifest, file))?;
    text.extend_from_slice(b"\n")?;
    Ok(())
}

fn path_at(manifest: &Manifest, file: u32) -> &[u8]
    requires { file < length manifest.now }
    ensures { result.now ≡ path_at manifest.now file }
{
    manifest.entry(file).path.bytes()
}

// Appends how many blocks there are, and how many bytes they have.
fn push_sums(alloc: Global, text: &mut Vec<u8>, count: u64, bytes: u64) -> Result<(), AllocError>
    ensures { OnOk result (text.new.items ≡ text.old.items ++ (codes "blocks " ++ decimal count ++ codes "\nbytes " ++ decimal bytes ++ codes "\n")) }
{
    let sums = format!(in alloc; "blocks {count}\nbytes {bytes}\n")?;
    text.extend_from_slice(sums.as_bytes())?;
    Ok(())
}
