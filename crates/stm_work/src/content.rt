// The image that files hold, as far as it can be read before the device is known.
ghost use Rattle.std.specs.Prelude.{◌≡◌, IfErr, IfOk, IfSome, length};
ghost use Rattle.stm_image.specs.Joined.{all_pairs_of};
ghost use Rattle.stm_image.specs.Pairs.{IsSetOf};
ghost use Rattle.stm_work.specs.Content.{ArePlacedOf, ComeOfFilesBy, ComesOf, ComesOfFile, ImageOn, IsBaseOf};
ghost use Rattle.stm_work.specs.Content.{IsPlacedOf, NamesImage};
ghost use Rattle.stm_work.specs.Content.{IsCopy, IsNoPlace, IsPlacedBy, LiesFrom, TellUnlike, has_room, is_hex};

use crate::failure::Failure;
use std::alloc::{AllocError, Global};
use std::fs::Files;
use stm_chip::Table;
use stm_files::{add_image_line, foreign_form, read_file};
use stm_image::{Image, Unjoined, join, read_hex, read_raw};
use stm_session::{Fault, info};
use stm_wire::Rig;
use stm_words::{ImageFile, Range, UsageFault};

/// How many bytes a HEX text has at most.
const HEX: u32 = 64 << 20;

/// How many bytes a raw image has at most: as many as the largest flash that a table may name.
const RAW: usize = 2 << 20;

/// What HEX begins with.
const COLON: u8 = b':';

/// The image that files hold, with the void lines of a journal that name them.
#[derive(Drop)]
pub enum Content {
    /// It is known where each byte lies.
    Placed(Image, Vec<u8>),
    /// Raw bytes, which lie from the flash's first byte on.
    AtBase(Vec<u8>, Vec<u8>),
}

/// Reads the files of images whole: what they hold together, which for one alone may have no place yet.
pub fn read_images<'a, R: Files + AllocGlobal>(
    rt: &R,
    table: &Table,
    files: &[ImageFile<'a>],
) -> Result<Content, Failure<'a>>
    ensures { IfOk result (ComeOfFilesBy table.now files.now) }
{
    let names = image_lines(rt.alloc(), files)?;
    if let [file] = files {
        return read_content(rt, file, names);
    }
    let images = read_placed(rt, table, files)?;
    let image = join_files(rt.alloc(), files, &images)?;
    Ok(Content::Placed(image, names))
}

/// The void lines of a journal that name these files.
fn image_lines<'a>(alloc: Global, files: &[ImageFile<'a>]) -> Result<Vec<u8>, AllocError> {
    let mut lines = Vec::new(alloc);
    for file in files {
        add_image_line(alloc, &mut lines, file.name)?;
    }
    Ok(lines)
}

/// The images in files as one. Two that differ are told.
pub fn join_files<'a>(
    alloc: Global,
    files: &[ImageFile<'a>],
    images: &[Image],
) -> Result<Image, Failure<'a>>
    requires { length files.now ≡ length images.now }
    ensures ok { IfOk result (λ image. IsSetOf image (all_pairs_of images.now)) }
    ensures err { IfErr result (TellUnlike files.now images.now) }
{
    match join(alloc, images) {
        Ok(image) => Ok(image),
        Err(
            Unjoined::Differ {
                first,
                second,
                address,
            },
        ) => Err(Failure::ImagesDiffer(files[first].name, files[second].name, address)),
        Err(Unjoined::Memory) => Err(Failure::Memory),
    }
}

/// Reads the files of several images, each of which has its place.
fn read_placed<'a, R: Files + AllocGlobal>(
    rt: &R,
    table: &Table,
    files: &[ImageFile<'a>],
) -> Result<Vec<Image>, Failure<'a>>
    ensures { IfOk result (λ images. ArePlacedOf table.now files.now images.items) }
{
    let mut images = Vec::new(rt.alloc());
    for file in files {
        images.push(read_named(rt, table, file)?)?;
    }
    Ok(images)
}

/// Reads the file of one of several images, which a fault names.
fn read_named<'a, R: Files + AllocGlobal>(
    rt: &R,
    table: &Table,
    file: &ImageFile<'a>,
) -> Result<Image, Failure<'a>>
    ensures placed { IfOk result (IsPlacedOf table.now file.now) }
    ensures refused { IfErr result NamesImage }
{
    match read_among(rt, table, file) {
        Ok(image) => Ok(image),
        Err(failure) => Err(failure.of_image(file.name)),
    }
}

/// The same, without a name.
fn read_among<'a, R: Files + AllocGlobal>(
    rt: &R,
    table: &Table,
    file: &ImageFile<'a>,
) -> Result<Image, Failure<'a>>
    ensures { IfOk result (IsPlacedOf table.now file.now) }
{
    let content = read_content(rt, file, Vec::new(rt.alloc()))?;
    content.among(rt.alloc(), table, file.name)
}

/// Where the flash of each chip of a table begins, if that is one address.
fn flash_base(table: &Table) -> Option<u32>
    ensures { IfSome result (IsBaseOf table.now) }
{
    let base = table.chips().first()?.base();
    if table.chips().iter().all(|chip| chip.base() == base) {
        Some(base)
    } else {
        None
    }
}

/// Reads the file of an image whole.
fn read_content<'a, R: Files + AllocGlobal>(
    rt: &R,
    image: &ImageFile<'a>,
    names: Vec<u8>,
) -> Result<Content, Failure<'a>>
    ensures { IfOk result (ComesOfFile image.now) }
{
    let bytes = match read_file(rt, image.name, HEX) {
        Ok(bytes) => bytes,
        Err(e) => return Err(Failure::of_file(&e, Failure::CannotRead(image.name))),
    };
    if !is_hex(bytes.as_slice(), image.is_raw) {
        check_raw(bytes.as_slice(), image)?;
    }
    content_of(rt.alloc(), bytes, names, image.is_raw, image.range)
}

/// Refuses bytes that are more than any flash has, or, unless they are said to be raw, no raw
/// image by how they begin.
fn check_raw<'a>(bytes: &[u8], image: &ImageFile<'a>) -> Result<(), Failure<'a>> {
    if bytes.len() > RAW {
        return Err(Failure::CannotRead(image.name));
    }
    match foreign_form(bytes) {
        Some(what) if !image.is_raw => Err(Failure::NotRaw(what)),
        _ => Ok(()),
    }
}

/// The image that the bytes of a file are.
fn content_of<'a>(
    alloc: Global,
    bytes: Vec<u8>,
    names: Vec<u8>,
    is_raw: bool,
    range: Option<Range>,
) -> Result<Content, Failure<'a>>
    ensures { ComesOf (is_hex is_raw bytes.items) range bytes.items result }
{
    match (is_hex(bytes.as_slice(), is_raw), range) {
        (true, Some(_)) => Err(Failure::Usage(UsageFault::RangeNeedsRaw)),
        (true, None) => Ok(Content::Placed(read_hex(alloc, bytes.as_slice())?, names)),
        (false, Some(range)) => {
            Ok(Content::Placed(place(alloc, bytes.as_slice(), range)?, names))
        }
        (false, None) => Ok(Content::AtBase(bytes, names)),
    }
}

/// Whether the bytes are HEX: they begin with a colon, and aren't said to be raw.
fn is_hex(bytes: &[u8], is_raw: bool) -> bool
    ensures { result ≡ is_hex is_raw bytes.now }
{
    match bytes.first() {
        Some(first) => !is_raw && *first == COLON,
        None => false,
    }
}

/// The image of raw bytes from a place on; a length that is given has to have room for them.
fn place<'a>(alloc: Global, bytes: &[u8], range: Range) -> Result<Image, Failure<'a>>
    ensures placed { IfOk result (LiesFrom range bytes.now) }
    ensures refused { IfErr result (IsNoPlace range bytes.now) }
{
    let image = read_raw(alloc, bytes, range.start)?;
    if has_room(range.length, bytes.len()) {
        Ok(image)
    } else {
        Err(Failure::Session(Fault::OutOfFlash))
    }
}

/// Whether a length, where one is given, has room for so many bytes.
fn has_room(length: Option<u32>, size: usize) -> bool
    ensures { result ≡ has_room length size }
{
    match length {
        Some(most) => size as u64 <= u64::from(most),
        None => true,
    }
}

impl Content {
    /// The lines that name its files.
    pub fn names(&self) -> &[u8] {
        match self {
            Content::Placed(_, names) | Content::AtBase(_, names) => names.as_slice(),
        }
    }

    /// The same once more.
    pub fn copy(&self, alloc: Global) -> Result<Content, AllocError>
        ensures { IfOk result (IsCopy self.now) }
    {
        match self {
            Content::Placed(image, names) => Ok(Content::Placed(
                image.clone()?,
                Vec::from_slice(alloc, names.as_slice())?,
            )),
            Content::AtBase(bytes, names) => Ok(Content::AtBase(
                Vec::from_slice(alloc, bytes.as_slice())?,
                Vec::from_slice(alloc, names.as_slice())?,
            )),
        }
    }

    /// The image where others are written with it. Raw bytes without a place begin where the flash of
    /// each chip of the table does.
    fn among<'a>(self, alloc: Global, table: &Table, name: &'a str) -> Result<Image, Failure<'a>>
        ensures { IfOk result (IsPlacedBy table.now self) }
    {
        match self {
            Content::Placed(image, _) => Ok(image),
            Content::AtBase(bytes, _) => match flash_base(table) {
                Some(base) => Ok(read_raw(alloc, bytes.as_slice(), base)?),
                None => Err(Failure::Usage(UsageFault::GivePlace(name))),
            },
        }
    }

    /// The image. The device is asked where its flash begins, where that has to be known.
    pub fn on_device<'a, L: Rig>(
        self,
        alloc: Global,
        rig: &mut L,
        table: &Table,
    ) -> Result<Image, Failure<'a>>
        ensures { ImageOn L.view table.now self rig.old rig.new result }
    {
        match self {
            Content::Placed(image, _) => Ok(image),
            Content::AtBase(bytes, _) => {
                let told = info(alloc, rig, table)?;
                Ok(read_raw(alloc, bytes.as_slice(), told.base)?)
            }
        }
    }
}
