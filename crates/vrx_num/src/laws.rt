//! What holds of the definitions themselves.

ghost use Rattle.vrx_num.specs.Extended.{MeansOne, GivesMeant, GivesNoneHalfAway};
ghost use Rattle.vrx_num.specs.Pictures.{MeansOnePicture, GivesPicture};

/// The laws of extending (RFC 3550 A.1). A wire number means one number at most; `extended` gives that
/// number; and it gives none just half of the space away. The function does nothing.
pub fn extended_is_near()
    ensures one { MeansOne }
    ensures some { GivesMeant }
    ensures none { GivesNoneHalfAway }
{}

/// The laws of extending a picture (RFC 7741 4.2). A wire value means one picture at most beside the newest one, and
/// `extended_picture` gives it, at each distance. The function does nothing.
pub fn picture_is_near()
    ensures one { MeansOnePicture }
    ensures given { GivesPicture }
{}
