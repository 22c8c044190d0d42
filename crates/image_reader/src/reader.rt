// The image reader: an image that passed its check, held only for reading.
ghost use Rattle.image_format.specs.Image.{SoundImage};
ghost use Rattle.image_format.proofs.Prop.{sound_prop};

use crate::laid::Laid;

// Its bytes are an image as the format has it.
#[derive(Clone, Copy)]
pub struct ImageReader<'a> {
    pub(crate) laid: Laid<'a>,
    pub ghost sound: { SoundImage laid.shape laid.bytes.now } by { sound_prop laid.shape laid.bytes.now },
}
