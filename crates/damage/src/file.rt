// Files of heaps, written from the two questions.
use model::heap::{CELLS, Heap, RECORDS};
use model::record::Record;
use std::alloc::{AllocError, Global};

// The lead bytes and the pairs of the sections.
pub const HEAD: u32 = 36;

fn write_all(out: &mut Vec<u8>, fields: &[u16]) -> Result<(), AllocError> {
    for field in fields {
        out.extend_from_slice(&field.to_le_bytes())?;
    }
    Ok(())
}

// The sections of a file, each in order of number.
#[derive(Drop)]
struct Sections {
    cells: Vec<u8>,
    roots: Vec<u8>,
    links: Vec<u8>,
    ephemerons: Vec<u8>,
}

impl Sections {
    fn new(memory: Global) -> Self {
        Sections {
            cells: Vec::new(memory),
            roots: Vec::new(memory),
            links: Vec::new(memory),
            ephemerons: Vec::new(memory),
        }
    }

    fn add_cell(&mut self, number: u16, size: u32) -> Result<(), AllocError> {
        write_all(&mut self.cells, &[number, 0])?;
        self.cells.extend_from_slice(&size.to_le_bytes())
    }

    fn add_record(&mut self, number: u16, record: Record) -> Result<(), AllocError> {
        match record {
            Record::Root { target } => write_all(&mut self.roots, &[number, target]),
            Record::Link {
                source,
                target,
                strength,
            } => write_all(
                &mut self.links,
                &[number, source, target, u32::from(strength) as u16],
            ),
            Record::Ephemeron { table, key, value } => {
                write_all(&mut self.ephemerons, &[number, table, key, value])
            }
        }
    }

    fn fill<H: Heap>(&mut self, heap: &H) -> Result<(), AllocError> {
        for n in 0..CELLS {
            if let Some(size) = heap.cell(u32::from(n)) {
                self.add_cell(n, size)?;
            }
        }
        for n in 0..RECORDS {
            if let Some(record) = heap.record(u32::from(n)) {
                self.add_record(n, record)?;
            }
        }
        Ok(())
    }
}

// Writes the pair of a section that starts at `offset`, and answers where it ends.
fn write_pair(out: &mut Vec<u8>, offset: u32, section: &[u8]) -> Result<u32, AllocError> {
    // a section of a heap's file has at most 32,768 bytes
    let size = section.len().min(32768) as u32;
    out.extend_from_slice(&offset.to_le_bytes())?;
    out.extend_from_slice(&size.to_le_bytes())?;
    Ok(offset.saturating_add(size))
}

// The file of a heap.
pub fn file_of<H: Heap>(memory: Global, heap: &H) -> Result<Vec<u8>, AllocError> {
    let mut sections = Sections::new(memory);
    sections.fill(heap)?;
    let mut file = Vec::new(memory);
    file.extend_from_slice(&[69, 72, 1, 4])?;
    let sections = [
        &sections.cells,
        &sections.roots,
        &sections.links,
        &sections.ephemerons,
    ];
    let mut offset = HEAD;
    for section in sections {
        offset = write_pair(&mut file, offset, section)?;
    }
    for section in sections {
        file.extend_from_slice(section)?;
    }
    Ok(file)
}
