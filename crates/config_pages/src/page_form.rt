//! Which SAS Device Page is meant.
ghost use Rattle.std.specs.Prelude.{◌≡◌, ◌+◌};
ghost use Rattle.config_pages.specs.PageAddress.{form_bits};

use mpi_names::MPI2_SAS_DEVICE_PGAD_FORM_HANDLE;

/// How a page address names a device (mpi2_cnfg.h, MPI2_SAS_DEVICE_PGAD_FORM_MASK).
#[derive(Clone, Copy, Debug, PartialEq, Eq)]
pub enum PageForm {
    /// The device with the next handle above the one given
    /// (MPI2_SAS_DEVICE_PGAD_FORM_GET_NEXT_HANDLE).
    Next,
    /// The device with the handle (MPI2_SAS_DEVICE_PGAD_FORM_HANDLE).
    ByHandle,
}

impl PageForm {
    // The form in the address' top four bits.
    fn bits(self) -> u32
        ensures { result ≡ form_bits self }
    {
        match self {
            PageForm::Next => 0x0000_0000,
            PageForm::ByHandle => MPI2_SAS_DEVICE_PGAD_FORM_HANDLE,
        }
    }
}

/// The page address of a SAS Device Page: the form in the top four bits and the device handle in
/// the low sixteen (mpi2_cnfg.h, MPI2_SAS_DEVICE_PGAD_FORM_MASK, MPI2_SAS_DEVICE_PGAD_HANDLE_MASK).
pub fn page_address(form: PageForm, handle: u16) -> u32
    ensures { result ≡ form_bits form + handle }
{
    form.bits() + u32::from(handle)
}
