//! Laws of what is written of a saved run.
ghost use Rattle.gic_resume.specs.Back.{ImagesHaveShape, StepsReadBack, ImagesReadBack};

/// A law of every saved run: its image has the fields of an image, each of its kind.
pub fn images_have_shape()
    ensures { ImagesHaveShape }
{}

/// A law of all steps that can be done one after the other from a standing on: as they are written in an image, they are read again.
/// The numbers of an MSI have 32 bits.
pub fn steps_read_back()
    ensures { StepsReadBack }
{}

/// A law of every run that can have been saved: what is written of it is an image of that run, so it reads again. The numbers of an
/// MSI have 32 bits.
pub fn images_read_back()
    ensures { ImagesReadBack }
{}
