/// A format of image files. The two differ in their marks and in the permissions that they have.
#[derive(Clone, Copy, Debug, PartialEq, Eq)]
pub enum Format {
    /// `DTI1`: the byte of a permission is from 0 to 3, and what may be read may be executed too.
    Dti1,
    /// `DTI2`: the byte of a permission is the permission, from 0 to 7.
    Dti2,
}
