//! The refusals of class files tell exactly why they don't link.

ghost use Rattle.std.specs.Prelude.{◌≡◌, ◌≢◌, List};
ghost use Rattle.class_file.specs.declared.class.ClassFile.{ClassFile};
ghost use Rattle.class_links.specs.declared.refusal.LinkRefusal.{LinkRefusal};
ghost use Rattle.class_links.specs.declared.refusal.LinkRefusal.TheVariants.{OutOfMemory as NoMemory};
ghost use Rattle.class_links.specs.Links.{Links, IsBroken};

/// Files that link are refused for nothing but want of memory.
pub fn files_that_link_break_nothing()
    ensures { (files : List ClassFile) (refusal : LinkRefusal) → Links files → IsBroken files refusal → refusal ≡ NoMemory }
{}

/// Files have one refusal only, but for want of memory.
pub fn one_refusal_only()
    ensures { (files : List ClassFile) (refusal other : LinkRefusal) → IsBroken files refusal → IsBroken files other
        → refusal ≢ NoMemory → other ≢ NoMemory → refusal ≡ other }
{}
