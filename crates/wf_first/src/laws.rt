ghost use Rattle.std.specs.Prelude.{◌↔◌, List, Contains};
ghost use Rattle.wf_data.specs.declared.class_info.ClassInfo.{ClassInfo};
ghost use Rattle.wf_names.specs.declared.member.MemberName.{MemberName};
ghost use Rattle.wf_sys.specs.declared.inequality.Inequality.{Inequality};
ghost use Rattle.wf_sys.specs.Nodes.{Node};
ghost use Rattle.wf_sys.specs.Program.{Row};
ghost use Rattle.wf_first.specs.Form.{IsOfForm};
ghost use Rattle.wf_first.specs.Rows.{rows_of};

/// The rows of a program of the form are exactly those of its list.
pub fn rows_are_the_table()
    ensures { (classes : List ClassInfo) (root : MemberName) (q : Inequality Node) →
        IsOfForm classes root → Row classes q ↔ Contains (rows_of (λ n. n) classes) q }
{}
