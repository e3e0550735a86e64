//! What the definitions of trees mean together.
ghost use Rattle.std.specs.Prelude.{◌≡◌, true};
ghost use Rattle.abc_tree.specs.Regular.{is_regular_template};
ghost use Rattle.abc_tree.specs.Templates.{template_text};
ghost use Rattle.abc_tree.specs.declared.templates.Template.{Template};

/// Regular templates with one text are one template.
pub fn one_template()
    ensures { (a b : Template) → is_regular_template a ≡ true → is_regular_template b ≡ true → template_text a ≡ template_text b → a ≡ b }
{}
